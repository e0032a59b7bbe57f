//! Schur rings: closures on the elements of a group.

ghost use Rattle.std.specs.Prelude.{◌≡◌, ◌≢◌, ◌↔◌, ◌≤◌, IsTrue, IfOk, OnOk, IsErrOf, All, length};
ghost use Rattle.pair_colours.specs.declared.coloured_pairs.TheConstants.{MOST_COLOUR};
ghost use Rattle.colour_wl.specs.GrowthStrings.{IsGrowth};
ghost use Rattle.schur_rings.specs.Ring.{RingOf};
ghost use Rattle.schur_rings.specs.declared.rings.RingFault.TheVariants.{NoMemory as fault_no_memory};

use crate::group_tables::Group;
use crate::numbering::numbered;
use colour_wl::close_colours;
use pair_colours::{MOST_COLOUR, NoMemory, Numbers};
use std::alloc::Global;

/// Why there is no closure on the elements.
#[derive(Clone, Copy, Debug, PartialEq, Eq)]
pub enum RingFault {
    /// There are not as many colours as elements.
    ColourCount,
    /// A colour is above the greatest raw colour.
    ColourRange,
    /// There is not enough memory.
    NoMemory,
}

impl From<NoMemory> for RingFault {
    ghost from_gives = { λ _ fault. fault ≡ fault_no_memory };

    fn from(_error: NoMemory) -> RingFault {
        RingFault::NoMemory
    }
}

// Whether no colour is above the greatest raw colour.
fn are_raw_colours(colours: &[u32]) -> bool
    ensures { IsTrue result ↔ All (λ colour. colour ≤ MOST_COLOUR) colours.now }
{
    for colour in colours {
        if *colour > MOST_COLOUR {
            return false;
        }
    }
    true
}

/// The closure of a colouring of the elements, element x having the colour at place x: the basic
/// sets of the coarsest Schur ring in which each colour is a union of basic sets, numbered in the
/// order of their least elements. Rounds work with the products of the group, so each takes one
/// step for each two elements. Both refusals come before memory is taken.
pub fn ring(alloc: Global, group: &Group, colours: &[u32]) -> Result<Numbers, RingFault>
    ensures ring { IfOk result (λ numbers. RingOf group.now colours.now numbers) }
    ensures growth { IfOk result (λ numbers. IsGrowth group.now.size numbers) }
    ensures counted { OnOk result (length colours.now ≡ group.now.size) }
    ensures within { OnOk result (All (λ colour. colour ≤ MOST_COLOUR) colours.now) }
    ensures count { IsErrOf result RingFault.ColourCount ↔ (length colours.now ≢ group.now.size) }
    ensures range { IsErrOf result RingFault.ColourRange
        ↔ ((length colours.now ≡ group.now.size) × ¬ All (λ colour. colour ≤ MOST_COLOUR) colours.now) }
{
    if colours.len() != group.order() as usize {
        return Err(RingFault::ColourCount);
    }
    if !are_raw_colours(colours) {
        return Err(RingFault::ColourRange);
    }
    Ok(closed(alloc, group, colours)?)
}

// The closure of a colour for each element.
fn closed(alloc: Global, group: &Group, colours: &[u32]) -> Result<Numbers, NoMemory>
    requires { length colours.now ≡ group.now.size }
    ensures ring { IfOk result (λ numbers. RingOf group.now colours.now numbers) }
    ensures growth { IfOk result (λ numbers. IsGrowth group.now.size numbers) }
{
    let _order = group.order();
    let string = numbered(alloc, colours)?;
    let numbers = close_colours(alloc, group.scheme(), &string)?;
    Ok(numbers)
}
