//! Whether a set of colours is good, by the closure on colours.

ghost use Rattle.std.specs.Prelude.{◌≡◌, ◌↔◌, ℕ, ◌<◌, length, slice_index, All, IsTrue, IfOk};
ghost use Rattle.pair_colours.specs.Naming.{rank_of};
ghost use Rattle.pair_colours.specs.Subsets.{IsSetBelow};
ghost use Rattle.colour_wl.specs.GrowthStrings.{IsGrowth};
ghost use Rattle.good_subsets.specs.GoodSets.{IsGood};
ghost use Rattle.good_subsets.specs.Marked.{IsMarked};

use colour_wl::close_colours;
use pair_colours::NoMemory;
use std::alloc::Global;
use struct_consts::Constants;

// The growth string that parts the colours in a set from the others.
fn marked(alloc: Global, rank: u32, set: &[u32]) -> Result<Vec<u32>, NoMemory>
    ensures growth { IfOk result (λ string. IsGrowth rank string.items) }
    ensures marks { IfOk result (λ string. IsMarked rank set.now string.items) }
{
    let inside = u32::from(!set.contains(&0));
    let mut string = Vec::with_capacity(alloc, rank as usize)?;
    for colour in 0..rank {
        let mark = if set.contains(&colour) {
            inside
        } else {
            1 - inside
        };
        string.push(mark)?;
    }
    Ok(string)
}

// Whether the numbers at all these places are one number.
fn is_one_number(numbers: &[u32], places: &[u32]) -> bool
    requires { All (λ place. place < length numbers.now) places.now }
    ensures { IsTrue result ↔ ((i : ℕ) → i < length places.now → slice_index numbers.now (slice_index places.now i) ≡ slice_index numbers.now (slice_index places.now 0)) }
{
    for i in 0..places.len() {
        if numbers[places[i] as usize] != numbers[places[0] as usize] {
            return false;
        }
    }
    true
}

// Whether a set of colours is good: a block of some fusion.
pub(crate) fn is_good(alloc: Global, k: &Constants, set: &[u32]) -> Result<bool, NoMemory>
    requires { IsSetBelow (rank_of k.now) set.now }
    ensures { IfOk result (λ answer. IsTrue answer ↔ IsGood k.now set.now) }
{
    if set.is_empty() {
        return Ok(false);
    }
    let string = marked(alloc, k.rank(), set)?;
    let closed = close_colours(alloc, k, &string)?;
    Ok(is_one_number(closed.as_slice(), set))
}
