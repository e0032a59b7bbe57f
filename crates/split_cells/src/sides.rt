//! The rows of classes at the two points of a pair.

ghost use Rattle.std.specs.Prelude.{◌≡◌, ◌<◌, length};
ghost use Rattle.split_cells.specs.Segments.{bound_of};
ghost use Rattle.split_cells.specs.Pairs.{IsClassed};

use crate::classed_pairs::ClassedPairs;

// The classes of the pairs from the first point, and of those to the second.
#[derive(Clone, Copy)]
pub(crate) struct Sides<'a> {
    pub(crate) row: &'a [u32],
    pub(crate) column: &'a [u32],
}

// The sides of the pair at place p.
pub(crate) fn sides_of(pairs: &ClassedPairs, p: u32) -> Sides<'_>
    requires classed { IsClassed pairs.now }
    requires inside { p < bound_of pairs.now.parting }
    ensures row { length result.row.now ≡ pairs.now.size }
    ensures column { length result.column.now ≡ pairs.now.size }
{
    Sides {
        row: pairs.row(pairs.size.first(p)),
        column: pairs.column(pairs.size.second(p)),
    }
}
