//! Whether the products of blocks of colours are constant on blocks.
//!
//! A block is told by its head: the heads list has the head of the block of each colour.

ghost use Rattle.std.specs.Prelude.{◌≡◌, ◌↔◌, ℕ, ◌+◌, ◌*◌, ◌%◌, ◌^◌, ◌<◌, ◌≤◌, length, slice_index, sum_by, IsTrue};
ghost use Rattle.pair_colours.specs.Naming.{rank_of};
ghost use Rattle.visitors.specs.declared.visitor.TheConstants.{MOST_SET_RANK};
ghost use Rattle.good_subsets.specs.Products.{IsTable};
ghost use Rattle.mergings.specs.Searches.{block_at, AreHeads, IsHead, IsConstantFrom, AreConstant};

use struct_consts::Constants;
use visitors::has_colour;

// How many places the rows of one left colour take in the table.
const SQUARE: usize = 256;

// Adds the rows of a left colour, modulo 2^32.
fn add_square(table: &[u32], start: usize, rows: &mut [u32])
    requires table { start + 256 ≤ length table.now }
    requires rows { length rows.old ≡ 256 }
    ensures len { length rows.new ≡ 256 }
    ensures each { (p : ℕ) → p < 256 → slice_index rows.new p ≡ (slice_index rows.old p + slice_index table.now (start + p)) % 2 ^ 32 }
{
    for p in 0..SQUARE {
        rows[p] = rows[p].wrapping_add(table[start + p]);
    }
}

// Adds the rows of all left colours with a head, modulo 2^32, to rows that are 0.
fn add_left(rank: u32, table: &[u32], heads: &[u32], head: u32, rows: &mut [u32])
    requires small { rank ≤ MOST_SET_RANK }
    requires table { length table.now ≡ 4096 }
    requires heads { length heads.now ≡ 16 }
    requires rows { length rows.old ≡ 256 }
    requires zero { (p : ℕ) → p < 256 → slice_index rows.old p ≡ 0 }
    ensures len { length rows.new ≡ 256 }
    ensures each { (p : ℕ) → p < 256 → slice_index rows.new p ≡ sum_by (λ i. slice_index table.now (i * 256 + p)) (block_at rank heads.now head) % 2 ^ 32 }
{
    for i in 0..rank {
        let own = heads[i as usize];
        if own == head {
            add_square(table, i as usize * SQUARE, rows);
        }
    }
}

// Adds 16 numbers of a list to those from a place of another, modulo 2^32.
fn add_row(rows: &[u32], from: usize, sums: &mut [u32], to: usize)
    requires rows { from + 16 ≤ length rows.now }
    requires sums { to + 16 ≤ length sums.old }
    ensures len { length sums.new ≡ length sums.old }
    ensures each { (k : ℕ) → k < 16 → slice_index sums.new (to + k) ≡ (slice_index sums.old (to + k) + slice_index rows.now (from + k)) % 2 ^ 32 }
    ensures below { (p : ℕ) → p < to → slice_index sums.new p ≡ slice_index sums.old p }
    ensures above { (p : ℕ) → to + 16 ≤ p → slice_index sums.new p ≡ slice_index sums.old p }
{
    for k in 0..16 {
        sums[to + k] = sums[to + k].wrapping_add(rows[from + k]);
    }
}

// Adds the row of each right colour to that of its head, modulo 2^32, in sums that are 0.
fn add_right(rank: u32, heads: &[u32], rows: &[u32], sums: &mut [u32])
    requires small { rank ≤ MOST_SET_RANK }
    requires heads { length heads.now ≡ 16 }
    requires low { (c : ℕ) → c < rank → slice_index heads.now c ≤ c }
    requires rows { length rows.now ≡ 256 }
    requires sums { length sums.old ≡ 256 }
    requires zero { (p : ℕ) → p < 256 → slice_index sums.old p ≡ 0 }
    ensures len { length sums.new ≡ 256 }
    ensures each { (y k : ℕ) → y < 16 → k < 16 → slice_index sums.new (y * 16 + k) ≡ sum_by (λ j. slice_index rows.now (j * 16 + k)) (block_at rank heads.now y) % 2 ^ 32 }
{
    for j in 0..rank {
        let head = heads[j as usize] as usize;
        add_row(rows, j as usize * 16, sums, head * 16);
    }
}

// Whether the sums of a right head are one at all colours of each block.
fn is_one(rank: u32, heads: &[u32], sums: &[u32], y: u32) -> bool
    requires small { rank ≤ MOST_SET_RANK }
    requires heads { length heads.now ≡ 16 }
    requires low { (c : ℕ) → c < rank → slice_index heads.now c ≤ c }
    requires sums { length sums.now ≡ 256 }
    requires y { y < rank }
    ensures { IsTrue result ↔ ((k : ℕ) → k < rank → slice_index sums.now (y * 16 + k) ≡ slice_index sums.now (y * 16 + slice_index heads.now k)) }
{
    for k in 0..rank {
        let own = sums[(y * 16 + k) as usize];
        let other = sums[(y * 16 + heads[k as usize]) as usize];
        if own != other {
            return false;
        }
    }
    true
}

// Whether a colour is the head of a block.
fn is_head(heads: &[u32], covered: u32, x: u32) -> bool
    requires heads { length heads.now ≡ 16 }
    requires x { x < 16 }
    ensures { IsTrue result ↔ IsHead heads.now covered x }
{
    let own = heads[x as usize];
    if own != x {
        return false;
    }
    has_colour(covered, x)
}

// Whether the sums of a colour, if it is a head, are one at all colours of each block.
fn is_one_if_head(rank: u32, heads: &[u32], covered: u32, sums: &[u32], y: u32) -> bool
    requires small { rank ≤ MOST_SET_RANK }
    requires heads { length heads.now ≡ 16 }
    requires low { (c : ℕ) → c < rank → slice_index heads.now c ≤ c }
    requires sums { length sums.now ≡ 256 }
    requires y { y < rank }
    ensures { IsTrue result ↔ (IsHead heads.now covered y → (k : ℕ) → k < rank → slice_index sums.now (y * 16 + k) ≡ slice_index sums.now (y * 16 + slice_index heads.now k)) }
{
    if !is_head(heads, covered, y) {
        return true;
    }
    is_one(rank, heads, sums, y)
}

// Whether the sums of each head are one at all colours of each block.
fn are_one(rank: u32, heads: &[u32], covered: u32, sums: &[u32]) -> bool
    requires small { rank ≤ MOST_SET_RANK }
    requires heads { length heads.now ≡ 16 }
    requires low { (c : ℕ) → c < rank → slice_index heads.now c ≤ c }
    requires sums { length sums.now ≡ 256 }
    ensures { IsTrue result ↔ ((y : ℕ) → y < rank → IsHead heads.now covered y → (k : ℕ) → k < rank → slice_index sums.now (y * 16 + k) ≡ slice_index sums.now (y * 16 + slice_index heads.now k)) }
{
    for y in 0..rank {
        if !is_one_if_head(rank, heads, covered, sums, y) {
            return false;
        }
    }
    true
}

// Room for sums.
fn zeros() -> [u32; 256]
    ensures len { length result ≡ 256 }
    ensures zero { (p : ℕ) → p < 256 → slice_index result p ≡ 0 }
{
    [0; 256]
}

// Whether the product of the block of a colour and each block is constant on each block.
fn is_constant(k: &Constants, table: &[u32], heads: &[u32], covered: u32, x: u32) -> bool
    requires small { rank_of k.now ≤ MOST_SET_RANK }
    requires table { IsTable k.now table.now }
    requires heads { AreHeads (rank_of k.now) heads.now covered }
    ensures { IsTrue result ↔ IsConstantFrom k.now heads.now covered x }
{
    let rank = k.rank();
    let mut rows = zeros();
    let mut sums = zeros();
    add_left(rank, table, heads, x, &mut rows);
    add_right(rank, heads, &rows, &mut sums);
    are_one(rank, heads, covered, &sums)
}

// Whether it is so, if the colour is a head.
fn is_constant_if_head(k: &Constants, table: &[u32], heads: &[u32], covered: u32, x: u32) -> bool
    requires small { rank_of k.now ≤ MOST_SET_RANK }
    requires table { IsTable k.now table.now }
    requires heads { AreHeads (rank_of k.now) heads.now covered }
    requires x { x < rank_of k.now }
    ensures { IsTrue result ↔ (IsHead heads.now covered x → IsConstantFrom k.now heads.now covered x) }
{
    let _rank = k.rank();
    if !is_head(heads, covered, x) {
        return true;
    }
    is_constant(k, table, heads, covered, x)
}

/// Whether the product of each two blocks is constant on each block. The last heads come first,
/// since those of new blocks are mostly late.
pub(crate) fn are_constant(k: &Constants, table: &[u32], heads: &[u32], covered: u32) -> bool
    requires small { rank_of k.now ≤ MOST_SET_RANK }
    requires table { IsTable k.now table.now }
    requires heads { AreHeads (rank_of k.now) heads.now covered }
    ensures { IsTrue result ↔ AreConstant k.now heads.now covered }
{
    let rank = k.rank();
    for step in 0..rank {
        if !is_constant_if_head(k, table, heads, covered, rank - 1 - step) {
            return false;
        }
    }
    true
}
