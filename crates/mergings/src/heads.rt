//! Blocks of colours by their heads: the head of a block is its least colour.

ghost use Rattle.std.specs.Prelude.{◌≡◌, ◌↔◌, ℕ, ◌<◌, ◌≤◌, true, false, length, slice_index, IfOk, IsTrue};
ghost use Rattle.pair_colours.specs.Naming.{rank_of};
ghost use Rattle.colour_wl.specs.BlockSums.{transposed, IsDiagonalColour};
ghost use Rattle.colour_wl.specs.GrowthStrings.{IsGrowth};
ghost use Rattle.visitors.specs.Masks.{is_member};
ghost use Rattle.visitors.specs.declared.visitor.TheConstants.{MOST_SET_RANK};
ghost use Rattle.mergings.specs.Searches.{AreHeads, IsSoundAt, AreSound, IsJoined, IsLeast, IsOfHeads};

use pair_colours::NoMemory;
use std::alloc::Global;
use struct_consts::Constants;
use visitors::has_colour;

/// The first colour that no block has, or the rank. All before `from` are known to be in a block.
pub(crate) fn first_free(rank: u32, from: u32, covered: u32) -> u32
    requires small { rank ≤ MOST_SET_RANK }
    requires from { from ≤ rank }
    requires covered { (c : ℕ) → c < from → is_member covered c ≡ true }
    ensures inside { result ≤ rank }
    ensures later { from ≤ result }
    ensures covered { (c : ℕ) → c < result → is_member covered c ≡ true }
    ensures free { result < rank → is_member covered result ≡ false }
{
    for colour in from..rank {
        if !has_colour(covered, colour) {
            return colour;
        }
    }
    rank
}

/// The least colour of a set, or the rank.
pub(crate) fn least_of(rank: u32, set: u32) -> u32
    requires small { rank ≤ MOST_SET_RANK }
    ensures inside { result ≤ rank }
    ensures least { result < rank → IsLeast set result }
    ensures none { (c : ℕ) → c < result → is_member set c ≡ false }
{
    for colour in 0..rank {
        if has_colour(set, colour) {
            return colour;
        }
    }
    rank
}

/// Gives the colours of a set a head.
pub(crate) fn join(rank: u32, set: u32, head: u32, heads: &mut [u32])
    requires small { rank ≤ MOST_SET_RANK }
    requires heads { length heads.old ≡ 16 }
    ensures { IsJoined rank set head heads.old heads.new }
{
    for colour in 0..rank {
        if has_colour(set, colour) {
            heads[colour as usize] = head;
        }
    }
}

// The number of a colour: that of its head, if it stands in the string, or the next one.
fn number_of(string: &[u32], head: u32, next: u32) -> u32
    ensures there { head < length string.now → result ≡ slice_index string.now head }
    ensures fresh { length string.now ≤ head → result ≡ next }
{
    if (head as usize) < string.len() {
        string[head as usize]
    } else {
        next
    }
}

/// The growth string of blocks that cover all colours.
pub(crate) fn string_of(
    alloc: Global,
    rank: u32,
    heads: &[u32],
    covered: u32,
) -> Result<Vec<u32>, NoMemory>
    requires small { rank ≤ MOST_SET_RANK }
    requires heads { AreHeads rank heads.now covered }
    ensures growth { IfOk result (λ string. IsGrowth rank string.items) }
    ensures same { IfOk result (λ string. IsOfHeads heads.now string.items) }
{
    let mut string = Vec::with_capacity(alloc, 16)?;
    let mut next = 0;
    for colour in 0..rank {
        let number = number_of(&string, heads[colour as usize], next);
        string.push(number)?;
        if number == next {
            next += 1;
        }
    }
    Ok(string)
}

// Whether a class is diagonal.
fn is_diagonal(k: &Constants, colour: u32) -> bool
    requires { colour < rank_of k.now }
    ensures { IsTrue result ↔ IsDiagonalColour k.now colour }
{
    let _rank = k.rank();
    let (x, y) = k.pair(colour);
    x == y
}

// Whether the transposes of a colour and its head are in one block.
fn is_turned(k: &Constants, heads: &[u32], colour: u32) -> bool
    requires small { rank_of k.now ≤ MOST_SET_RANK }
    requires heads { length heads.now ≡ 16 }
    requires low { (c : ℕ) → c < rank_of k.now → slice_index heads.now c ≤ c }
    requires colour { colour < rank_of k.now }
    ensures { IsTrue result ↔ slice_index heads.now (transposed k.now colour) ≡ slice_index heads.now (transposed k.now (slice_index heads.now colour)) }
{
    let _rank = k.rank();
    let head = heads[colour as usize];
    let left = k.transpose(colour);
    let right = k.transpose(head);
    heads[left as usize] == heads[right as usize]
}

// Whether two classes are diagonal or neither is.
fn agrees(k: &Constants, left: u32, right: u32) -> bool
    requires left { left < rank_of k.now }
    requires right { right < rank_of k.now }
    ensures { IsTrue result ↔ (IsDiagonalColour k.now left ↔ IsDiagonalColour k.now right) }
{
    if is_diagonal(k, left) {
        return is_diagonal(k, right);
    }
    if is_diagonal(k, right) {
        return false;
    }
    true
}

// Whether a colour and its head have transposes of one block, and both are diagonal or neither is.
fn is_sound(k: &Constants, heads: &[u32], colour: u32) -> bool
    requires small { rank_of k.now ≤ MOST_SET_RANK }
    requires heads { length heads.now ≡ 16 }
    requires low { (c : ℕ) → c < rank_of k.now → slice_index heads.now c ≤ c }
    requires colour { colour < rank_of k.now }
    ensures { IsTrue result ↔ IsSoundAt k.now heads.now colour }
{
    if !agrees(k, colour, heads[colour as usize]) {
        return false;
    }
    is_turned(k, heads, colour)
}

/// Whether the transposes of each block are in one block, and each block has diagonal colours alone
/// or none.
pub(crate) fn are_sound(k: &Constants, heads: &[u32]) -> bool
    requires small { rank_of k.now ≤ MOST_SET_RANK }
    requires heads { length heads.now ≡ 16 }
    requires low { (c : ℕ) → c < rank_of k.now → slice_index heads.now c ≤ c }
    ensures { IsTrue result ↔ AreSound k.now heads.now }
{
    for colour in 0..k.rank() {
        if !is_sound(k, heads, colour) {
            return false;
        }
    }
    true
}

/// Makes each colour its own head.
pub(crate) fn own_heads(heads: &mut [u32])
    requires { length heads.old ≡ 16 }
    ensures len { length heads.new ≡ 16 }
    ensures own { (c : ℕ) → c < 16 → slice_index heads.new c ≡ c }
{
    for colour in 0..16 {
        heads[colour] = colour as u32;
    }
}
