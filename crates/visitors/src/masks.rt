//! Sets of colours as masks.

ghost use Rattle.std.specs.Prelude.{◌≡◌, ◌+◌, ◌^◌, ◌<◌, ◌≤◌, OnOk};
ghost use Rattle.visitors.specs.Masks.{is_member, members_of};
ghost use Rattle.visitors.specs.declared.visitor.TheConstants.{MOST_SET_RANK};

use pair_colours::NoMemory;

/// Whether a colour is in the set of a mask.
pub fn has_colour(mask: u32, colour: u32) -> bool
    requires { colour < 32 }
    ensures { result ≡ is_member mask colour }
{
    (mask >> colour) % 2 == 1
}

/// The mask with one colour more, which is above its other colours.
pub fn with_colour(mask: u32, colour: u32) -> u32
    requires colour { colour < 31 }
    requires low { mask < 2 ^ colour }
    ensures { result ≡ mask + 2 ^ colour }
{
    mask + (1 << colour)
}

// Makes a list that of the members of the set of a mask, rising.
pub(crate) fn list_members(rank: u32, mask: u32, set: &mut Vec<u32>) -> Result<(), NoMemory>
    requires { rank ≤ MOST_SET_RANK }
    ensures { OnOk result (set.new.items ≡ members_of rank mask) }
{
    set.clear();
    for colour in 0..rank {
        if has_colour(mask, colour) {
            set.push(colour)?;
        }
    }
    Ok(())
}
