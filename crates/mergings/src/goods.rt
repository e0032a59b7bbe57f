//! The good sets by their least colours.

ghost use Rattle.std.specs.Prelude.{◌≡◌, ◌↔◌, ◌<◌, ◌≤◌, ℕ, [], List, length, map, vec_items, Contains, slice_index, IfOk, IsTrue};
ghost use Rattle.pair_colours.specs.Naming.{rank_of};
ghost use Rattle.visitors.specs.declared.visitor.TheConstants.{MOST_SET_RANK};
ghost use Rattle.good_subsets.specs.GoodSets.{AreGoodNumbers};
ghost use Rattle.mergings.specs.Searches.{IsLeast, AreByLeast};
ghost use Rattle.mergings.specs.Leasts.{AreThoseWithLeast};

use pair_colours::NoMemory;
use std::alloc::Global;
use struct_consts::Constants;

// Whether a colour is the least of the set of a mask.
fn is_least(set: u32, colour: u32) -> bool
    requires { colour < 32 }
    ensures { IsTrue result ↔ IsLeast set colour }
{
    set.trailing_zeros() == colour
}

// The masks whose sets have this least colour.
fn with_least(alloc: Global, masks: &[u32], colour: u32) -> Result<Vec<u32>, NoMemory>
    requires { colour < 32 }
    ensures { IfOk result (λ those. AreThoseWithLeast masks.now colour those.items) }
{
    let mut those = Vec::new(alloc);
    for i in 0..masks.len() {
        if is_least(masks[i], colour) {
            those.push(masks[i])?;
        }
    }
    Ok(those)
}

/// The masks of good sets, those with one least colour together.
pub(crate) fn by_least(
    alloc: Global,
    k: &Constants,
    masks: &[u32],
) -> Result<Vec<Vec<u32>>, NoMemory>
    requires small { rank_of k.now ≤ MOST_SET_RANK }
    requires masks { AreGoodNumbers k.now masks.now }
    ensures { IfOk result (λ goods. AreByLeast k.now (map vec_items goods.items)) }
{
    let mut goods = Vec::new(alloc);
    for colour in 0..k.rank() {
        goods.push(with_least(alloc, masks, colour)?)?;
    }
    Ok(goods)
}
