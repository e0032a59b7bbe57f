//! What an edit makes of the present colouring, or why it is refused.

ghost use Rattle.std.specs.Prelude.{◌≡◌, ◌≢◌, true, IfOk, IfErr};
ghost use Rattle.pair_colours.specs.Closure.{IsClosureOf};
ghost use Rattle.recolour_bench.specs.Edits.{IsRawEdit, edit_of, makes_closure, factor_of};
ghost use Rattle.recolour_bench.specs.Steps.{Makes, IsRefusedAt};

use crate::edits::{Edit, EditFault};
use crate::recolouring::edited_by;
use crate::refusals::{product_refusal, refusal_at};
use pair_colours::Colouring;
use std::alloc::Global;
use wl_refine::close;

// What the edit makes of a colouring with its closure at a position, where the closure of the
// second factor of a product is at hand.
fn next_with(
    alloc: Global,
    raw: &Colouring,
    closure: &Colouring,
    factor: &Colouring,
    position: u32,
    edit: &Edit,
) -> Result<Colouring, EditFault>
    requires closure { IsClosureOf closure.now raw.now }
    requires factor { IsClosureOf factor.now (factor_of raw.now (edit_of edit.now)) }
    ensures made { IfOk result (Makes raw.now position (edit_of edit.now)) }
    ensures refused { IfErr result (λ fault. fault ≢ EditFault.NoMemory → IsRefusedAt raw.now position (edit_of edit.now) fault) }
    ensures closed { IfOk result (λ next. makes_closure (edit_of edit.now) ≡ true → IsClosureOf next next) }
{
    let refusal = refusal_at(alloc, raw, closure, factor, position, edit)?;
    if let Some(fault) = refusal {
        return Err(fault);
    }
    Ok(edited_by(alloc, raw, closure, factor, edit)?)
}

// What the edit makes of a colouring with its closure at a position. The closure of the second
// factor of a product is computed only where the product has not too many points.
pub(crate) fn next_by(
    alloc: Global,
    raw: &Colouring,
    closure: &Colouring,
    position: u32,
    edit: &Edit,
) -> Result<Colouring, EditFault>
    requires closure { IsClosureOf closure.now raw.now }
    requires within { IsRawEdit (edit_of edit.now) }
    ensures made { IfOk result (Makes raw.now position (edit_of edit.now)) }
    ensures refused { IfErr result (λ fault. fault ≢ EditFault.NoMemory → IsRefusedAt raw.now position (edit_of edit.now) fault) }
    ensures closed { IfOk result (λ next. makes_closure (edit_of edit.now) ≡ true → IsClosureOf next next) }
{
    match *edit {
        Edit::Direct { other } | Edit::Wreath { other } => {
            if let Some(fault) = product_refusal(raw, other) {
                return Err(fault);
            }
            let closed = close(alloc, other)?;
            next_with(alloc, raw, closure, &closed.matrix, position, edit)
        }
        _ => next_with(alloc, raw, closure, closure, position, edit),
    }
}
