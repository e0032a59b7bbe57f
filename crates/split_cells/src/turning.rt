//! Steps by the classes of transposed pairs. They serve a search: nothing is promised of them.

ghost use Rattle.std.specs.Prelude.{◌<◌};
ghost use Rattle.split_cells.specs.Grids.{IsUsed};
ghost use Rattle.split_cells.specs.Pairs.{IsClassed};

use crate::classed_pairs::ClassedPairs;

// The class of the transposed first pair of class k.
pub(crate) fn turned_class(pairs: &ClassedPairs, k: u32) -> u32
    requires classed { IsClassed pairs.now }
    requires used { IsUsed pairs.now.parting.class.items pairs.now.parting.rank }
    requires class { k < pairs.now.parting.rank }
{
    pairs.turned[pairs.parting.members(k)[0] as usize]
}

// The class of the transposed first pair of class k, unless it has all transposed pairs of class k.
// Of two parts that it makes, one has all pairs that were looked at but the last, and is done. So to
// part a class until all its parts are done, each pair is looked at about once.
pub(crate) fn turned_apart(pairs: &ClassedPairs, k: u32) -> Option<u32>
    requires classed { IsClassed pairs.now }
    requires used { IsUsed pairs.now.parting.class.items pairs.now.parting.rank }
    requires class { k < pairs.now.parting.rank }
{
    let first = turned_class(pairs, k);
    for p in pairs.parting.members(k) {
        if pairs.turned[*p as usize] != first {
            return Some(first);
        }
    }
    None
}
