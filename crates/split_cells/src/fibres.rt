//! Steps by the fibres that the pairs of a class lead from and to. They serve a search: nothing is
//! promised of them.

ghost use Rattle.std.specs.Prelude.{◌<◌};
ghost use Rattle.split_cells.specs.Grids.{IsUsed};
ghost use Rattle.split_cells.specs.Pairs.{IsClassed};
ghost use Rattle.split_cells.specs.Segments.{bound_of};

use crate::classed_pairs::ClassedPairs;
use crate::triangle_counts::Triangle;

// The class of the diagonal pair at a point.
fn fibre(pairs: &ClassedPairs, x: u32) -> u32
    requires classed { IsClassed pairs.now }
    requires point { x < pairs.now.size }
{
    pairs.row(x)[x as usize]
}

// The fibre that the pair at place p leads from.
fn before(pairs: &ClassedPairs, p: u32) -> u32
    requires classed { IsClassed pairs.now }
    requires inside { p < bound_of pairs.now.parting }
{
    fibre(pairs, pairs.size.first(p))
}

// The fibre that the pair at place p leads to.
fn behind(pairs: &ClassedPairs, p: u32) -> u32
    requires classed { IsClassed pairs.now }
    requires inside { p < bound_of pairs.now.parting }
{
    fibre(pairs, pairs.size.second(p))
}

// A step by a fibre that the first pair of class k leads from or to, and another pair of it does not.
// The part that it makes has all pairs that were looked at but the last, so to part a class until all
// its pairs lead from one fibre to one, each pair is looked at about twice.
pub(crate) fn fibre_step(pairs: &ClassedPairs, k: u32) -> Option<Triangle>
    requires classed { IsClassed pairs.now }
    requires used { IsUsed pairs.now.parting.class.items pairs.now.parting.rank }
    requires class { k < pairs.now.parting.rank }
{
    let members = pairs.parting.members(k);
    let first = members[0];
    let left = before(pairs, first);
    let right = behind(pairs, first);
    for p in members {
        if before(pairs, *p) != left {
            return Some(Triangle {
                class: k,
                left,
                right: k,
            });
        }
        if behind(pairs, *p) != right {
            return Some(Triangle {
                class: k,
                left: k,
                right,
            });
        }
    }
    None
}
