//! The transposes of a set of colours.

ghost use Rattle.std.specs.Prelude.{◌≤◌};
ghost use Rattle.pair_colours.specs.Naming.{rank_of};
ghost use Rattle.visitors.specs.declared.visitor.TheConstants.{MOST_SET_RANK};
ghost use Rattle.good_subsets.specs.Transposed.{IsTurned};

use struct_consts::Constants;
use visitors::{has_colour, with_colour};

/// The mask of the transposes of the colours of a mask.
pub fn transposes_of(k: &Constants, mask: u32) -> u32
    requires { rank_of k.now ≤ MOST_SET_RANK }
    ensures { IsTurned k.now mask result }
{
    let rank = k.rank();
    let mut turned = 0;
    for colour in 0..rank {
        if has_colour(mask, k.transpose(colour)) {
            turned = with_colour(turned, colour);
        }
    }
    turned
}
