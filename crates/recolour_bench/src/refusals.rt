//! The tests of an edit, in their order.

ghost use Rattle.std.specs.Prelude.{◌≡◌, IfOk};
ghost use Rattle.pair_colours.specs.Tests.{first_that_holds};
ghost use Rattle.recolour_bench.specs.Edits.{edit_of};
ghost use Rattle.recolour_bench.specs.Steps.{pair_tests, colour_tests, string_tests, product_tests, fibre_tests, edit_tests, edit_refusal};

use crate::edits::{Edit, EditFault};
use crate::history::MOST_POSITION;
use colour_wl::is_growth;
use pair_colours::{Colouring, MOST_COLOUR, MOST_POINTS, NoMemory, has_one_fibre};
use std::alloc::Global;

// Why the pair (x, y) cannot get the colour.
fn pair_refusal(colouring: &Colouring, x: u32, y: u32, colour: u32) -> Option<EditFault>
    ensures { result ≡ first_that_holds (pair_tests colouring.now x y colour) }
{
    if x >= colouring.size() || y >= colouring.size() {
        Some(EditFault::PointRange)
    } else if colour > MOST_COLOUR {
        Some(EditFault::ColourRange)
    } else {
        None
    }
}

// Why the colour cannot be joined to another.
fn colour_refusal(colouring: &Colouring, colour: u32) -> Option<EditFault>
    ensures { result ≡ first_that_holds (colour_tests colouring.now colour) }
{
    if colour > MOST_COLOUR {
        Some(EditFault::ColourRange)
    } else if colouring.first_pair(colour).is_none() {
        Some(EditFault::ColourAbsent)
    } else {
        None
    }
}

// Why the string does not merge the colours.
fn string_refusal(
    alloc: Global,
    closure: &Colouring,
    string: &[u32],
) -> Result<Option<EditFault>, NoMemory>
    ensures { IfOk result (λ refusal. refusal ≡ first_that_holds (string_tests closure.now string.now)) }
{
    let rank = closure.rank(alloc)?;
    if is_growth(string, rank) {
        Ok(None)
    } else {
        Ok(Some(EditFault::NotGrowth))
    }
}

// Why there is no product of so many points.
pub(crate) fn product_refusal(raw: &Colouring, other: &Colouring) -> Option<EditFault>
    ensures { result ≡ first_that_holds (product_tests raw.now other.now) }
{
    if raw.size() * other.size() > MOST_POINTS {
        Some(EditFault::TooManyPoints)
    } else {
        None
    }
}

// Why there is no wreath product of the factors.
fn fibre_refusal(closure: &Colouring, factor: &Colouring) -> Option<EditFault>
    ensures { result ≡ first_that_holds (fibre_tests closure.now factor.now) }
{
    if has_one_fibre(closure) && has_one_fibre(factor) {
        None
    } else {
        Some(EditFault::NotHomogeneous)
    }
}

// Why the colouring cannot be edited so, where it is not for want of a position.
fn own_refusal(
    alloc: Global,
    raw: &Colouring,
    closure: &Colouring,
    factor: &Colouring,
    edit: &Edit,
) -> Result<Option<EditFault>, NoMemory>
    ensures { IfOk result (λ refusal. refusal ≡ first_that_holds (edit_tests raw.now closure.now factor.now (edit_of edit.now))) }
{
    match *edit {
        Edit::Set { x, y, colour } | Edit::Both { x, y, colour } => {
            Ok(pair_refusal(raw, x, y, colour))
        }
        Edit::Fix { x } if x >= raw.size() => Ok(Some(EditFault::PointRange)),
        Edit::Join { keep, gone } => match colour_refusal(raw, keep) {
            Some(fault) => Ok(Some(fault)),
            None => Ok(colour_refusal(raw, gone)),
        },
        Edit::Fix { .. } | Edit::Adopt => Ok(None),
        Edit::Fuse { string } => string_refusal(alloc, closure, string),
        Edit::Direct { other } => Ok(product_refusal(raw, other)),
        Edit::Wreath { other } => match product_refusal(raw, other) {
            Some(fault) => Ok(Some(fault)),
            None => Ok(fibre_refusal(closure, factor)),
        },
    }
}

// Why the edit is refused at a position of this colouring, with its closure and that of the second
// factor of a product.
pub(crate) fn refusal_at(
    alloc: Global,
    raw: &Colouring,
    closure: &Colouring,
    factor: &Colouring,
    position: u32,
    edit: &Edit,
) -> Result<Option<EditFault>, NoMemory>
    ensures { IfOk result (λ refusal. refusal ≡ edit_refusal raw.now closure.now factor.now position (edit_of edit.now)) }
{
    match own_refusal(alloc, raw, closure, factor, edit)? {
        Some(fault) => Ok(Some(fault)),
        None if position == MOST_POSITION => Ok(Some(EditFault::HistoryFull)),
        None => Ok(None),
    }
}
