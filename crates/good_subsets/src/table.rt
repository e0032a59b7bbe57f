//! The structure constants as a table, and products of sets.

ghost use Rattle.std.specs.Prelude.{◌≡◌, ℕ, ◌+◌, ◌/◌, ◌%◌, ◌^◌, ◌<◌, ◌≤◌, length, slice_index, sum_by, All, IfOk, IsTrue};
ghost use Rattle.pair_colours.specs.Naming.{rank_of};
ghost use Rattle.pair_colours.specs.IntersectionNumber.{intersection_number};
ghost use Rattle.colour_wl.specs.BlockSums.{product_at};
ghost use Rattle.visitors.specs.declared.visitor.TheConstants.{MOST_SET_RANK};
ghost use Rattle.good_subsets.specs.Products.{IsTable, IsConstantOn};

use pair_colours::NoMemory;
use std::alloc::Global;
use struct_consts::Constants;

// The entry at a place of the table: 0 where a colour is none of the configuration.
fn entry(k: &Constants, place: u32) -> u32
    requires { rank_of k.now ≤ MOST_SET_RANK }
    ensures { place / 16 / 16 < rank_of k.now → place / 16 % 16 < rank_of k.now → place % 16 < rank_of k.now → result ≡ intersection_number k.now (place / 16 / 16) (place / 16 % 16) (place % 16) }
{
    let rank = k.rank();
    let left = place / 16 / 16;
    let right = place / 16 % 16;
    let class = place % 16;
    if left >= rank || right >= rank || class >= rank {
        return 0;
    }
    k.value(left, right, class)
}

/// The structure constants as a table: the row of colours i and j begins at place (i * 16 + j) * 16,
/// and has p(i, j; k) at its place k.
pub fn constants_table(alloc: Global, k: &Constants) -> Result<Vec<u32>, NoMemory>
    requires { rank_of k.now ≤ MOST_SET_RANK }
    ensures { IfOk result (λ values. IsTable k.now values.items) }
{
    let mut values = Vec::with_capacity(alloc, 4096)?;
    for place in 0..4096 {
        values.push(entry(k, place))?;
    }
    Ok(values)
}

// Adds a row of the table, modulo 2^32.
fn add_row(table: &[u32], start: usize, sums: &mut [u32])
    requires row { start + 16 ≤ length table.now }
    requires sums { length sums.old ≡ 16 }
    ensures len { length sums.new ≡ 16 }
    ensures each { (k : ℕ) → k < 16 → slice_index sums.new k ≡ (slice_index sums.old k + slice_index table.now (start + k)) % 2 ^ 32 }
{
    for k in 0..16 {
        sums[k] = sums[k].wrapping_add(table[start + k]);
    }
}

// Adds the rows of a colour and each of a set, modulo 2^32.
fn add_rows(k: &Constants, table: &[u32], i: u32, right: &[u32], sums: &mut [u32])
    requires small { rank_of k.now ≤ MOST_SET_RANK }
    requires table { IsTable k.now table.now }
    requires row { i < rank_of k.now }
    requires right { All (λ j. j < rank_of k.now) right.now }
    requires len { length sums.old ≡ 16 }
    ensures len { length sums.new ≡ 16 }
    ensures each { (l : ℕ) → l < rank_of k.now → slice_index sums.new l ≡ (slice_index sums.old l + sum_by (λ j. intersection_number k.now i j l) right.now) % 2 ^ 32 }
{
    for place in 0..right.len() {
        let start = ((i * 16 + right[place]) * 16) as usize;
        add_row(table, start, sums);
    }
}

/// Makes sums, which are 0, the coefficients of the product of two sets at all colours, modulo 2^32.
pub fn product(k: &Constants, table: &[u32], left: &[u32], right: &[u32], sums: &mut [u32])
    requires small { rank_of k.now ≤ MOST_SET_RANK }
    requires table { IsTable k.now table.now }
    requires left { All (λ i. i < rank_of k.now) left.now }
    requires right { All (λ j. j < rank_of k.now) right.now }
    requires len { length sums.old ≡ 16 }
    requires zero { (l : ℕ) → l < 16 → slice_index sums.old l ≡ 0 }
    ensures len { length sums.new ≡ 16 }
    ensures each { (l : ℕ) → l < rank_of k.now → slice_index sums.new l ≡ product_at k.now left.now right.now l % 2 ^ 32 }
{
    for place in 0..left.len() {
        add_rows(k, table, left[place], right, sums);
    }
}

// Whether the sums at all colours of a set are one.
fn is_one_sum(sums: &[u32], set: &[u32]) -> bool
    requires len { length sums.now ≡ 16 }
    requires set { All (λ colour. colour < 16) set.now }
    ensures { ((i : ℕ) → i < length set.now → slice_index sums.now (slice_index set.now i) ≡ slice_index sums.now (slice_index set.now 0)) → IsTrue result }
{
    for i in 0..set.len() {
        if sums[set[i] as usize] != sums[set[0] as usize] {
            return false;
        }
    }
    true
}

// Whether the square of a set may have one coefficient at all its colours: where the answer is no,
// it has not, so the set is a block of no fusion.
pub(crate) fn square_is_constant(k: &Constants, table: &[u32], set: &[u32]) -> bool
    requires small { rank_of k.now ≤ MOST_SET_RANK }
    requires table { IsTable k.now table.now }
    requires set { All (λ j. j < rank_of k.now) set.now }
    ensures { IsConstantOn k.now set.now set.now set.now → IsTrue result }
{
    let mut sums = [0; 16];
    product(k, table, set, set, &mut sums);
    is_one_sum(&sums, set)
}
