//! Tests that each good set passes.

ghost use Rattle.std.specs.Prelude.{◌≡◌, ◌↔◌, ◌^◌, ◌<◌, ◌≤◌, true, IsTrue};
ghost use Rattle.pair_colours.specs.Naming.{rank_of};
ghost use Rattle.visitors.specs.Masks.{members_of};
ghost use Rattle.visitors.specs.declared.visitor.TheConstants.{MOST_SET_RANK};
ghost use Rattle.good_subsets.specs.GoodSets.{IsGood};
ghost use Rattle.good_subsets.specs.Diagonals.{IsDiagonalMask};

use crate::transposing::transposes_of;
use struct_consts::Constants;
use visitors::with_colour;

// The mask of the diagonal colours.
pub(crate) fn diagonal_mask(k: &Constants) -> u32
    requires { rank_of k.now ≤ MOST_SET_RANK }
    ensures { IsDiagonalMask k.now result }
{
    let mut mask = 0;
    for colour in 0..k.rank() {
        let (x, y) = k.pair(colour);
        if x == y {
            mask = with_colour(mask, colour);
        }
    }
    mask
}

// Whether a set has diagonal colours alone or none.
fn splits_diagonal(k: &Constants, diagonal: u32, mask: u32) -> bool
    requires diagonal { IsDiagonalMask k.now diagonal }
    requires low { mask < 2 ^ rank_of k.now }
    ensures { IsGood k.now (members_of (rank_of k.now) mask) → IsTrue result }
{
    let _rank = k.rank();
    let own = mask & diagonal;
    if own == 0 {
        return true;
    }
    own == mask
}

// Whether the transposes of a set are it, or apart from it.
fn is_turned_whole(k: &Constants, mask: u32) -> bool
    requires small { rank_of k.now ≤ MOST_SET_RANK }
    requires low { mask < 2 ^ rank_of k.now }
    ensures { IsGood k.now (members_of (rank_of k.now) mask) → IsTrue result }
{
    let _rank = k.rank();
    let turned = transposes_of(k, mask);
    if turned & mask == 0 {
        return true;
    }
    turned == mask
}

// Whether a set may be good, by its mask.
pub(crate) fn may_be_good(k: &Constants, diagonal: u32, mask: u32) -> bool
    requires small { rank_of k.now ≤ MOST_SET_RANK }
    requires diagonal { IsDiagonalMask k.now diagonal }
    requires low { mask < 2 ^ rank_of k.now }
    ensures { IsGood k.now (members_of (rank_of k.now) mask) → IsTrue result }
{
    if !splits_diagonal(k, diagonal, mask) {
        return false;
    }
    is_turned_whole(k, mask)
}
