//! Whether the last partition shows the claimed closure.

ghost use Rattle.std.specs.Prelude.{◌≡◌, ◌↔◌, IsTrue, IfOk, IfSome, IfNone};
ghost use Rattle.pair_colours.specs.Closure.{Coherent};
ghost use Rattle.pair_colours.specs.Naming.{named_of};
ghost use Rattle.trace_check.specs.Ends.{EndFails};

use pair_colours::{Colouring, NoMemory};
use split_cells::Cells;
use std::alloc::Global;
use trace_text::CheckWord;

// Whether a partition is coherent.
fn is_coherent(alloc: Global, cells: &Cells) -> Result<bool, NoMemory>
    ensures { IfOk result (λ answer. IsTrue answer ↔ Coherent cells.now) }
{
    let fault = cells.first_fault(alloc)?;
    Ok(fault.is_none())
}

// Whether two colourings are equal.
fn is_same(one: &Colouring, other: &Colouring) -> bool
    ensures { IsTrue result ↔ (one.now ≡ other.now) }
{
    one.size() == other.size() && one.colours() == other.colours()
}

// Whether a colouring is the naming of a partition.
fn is_naming(alloc: Global, cells: &Cells, colouring: &Colouring) -> Result<bool, NoMemory>
    ensures { IfOk result (λ answer. IsTrue answer ↔ (colouring.now ≡ named_of cells.now)) }
{
    if colouring.size() != cells.size() {
        return Ok(false);
    }
    let partition = cells.colouring(alloc)?;
    let named = partition.named(alloc)?;
    Ok(is_same(colouring, &named))
}

// What is wrong on the line of the claimed closure, where the last stage ended with a partition.
pub(crate) fn end_fault(
    alloc: Global,
    cells: &Cells,
    closure: &Colouring,
) -> Result<Option<CheckWord>, NoMemory>
    ensures none { IfOk result (λ fault. IfNone fault (Coherent cells.now × (closure.now ≡ named_of cells.now))) }
    ensures some { IfOk result (λ fault. IfSome fault (λ what. EndFails cells.now closure.now what)) }
{
    let coherent = is_coherent(alloc, cells)?;
    if !coherent {
        return Ok(Some(CheckWord::NotCoherent));
    }
    let shown = is_naming(alloc, cells, closure)?;
    if !shown {
        return Ok(Some(CheckWord::WrongClosure));
    }
    Ok(None)
}
