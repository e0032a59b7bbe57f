//! The form `check-cells TRACE`: the claim of a trace of cells is judged.

ghost use Rattle.std.specs.Prelude.{◌≡◌, ◌^◌, ◌<◌, IfErr, IfOk, IsErrOf};
ghost use Rattle.scheme_io.specs.Count.{Rose};
ghost use Rattle.std.specs.Io.KnownBytes.{Appends};
ghost use Rattle.equitable.specs.BadLines.{line_count};
ghost use Rattle.equitable.specs.Verdict.{IsVerdict};
ghost use Rattle.neighbour_answers.specs.CellsAnswer.{TellsCellVerdict, cell_verdict_text};
ghost use Rattle.cohere_inputs.specs.Said.{AddsLine};
ghost use Rattle.cohere_inputs.specs.Task.{CheckCells};
ghost use Rattle.cohere_core.specs.Added.{AddsUntil};
ghost use Rattle.cohere_core.specs.Ending.{IsEnding};
ghost use Rattle.cohere_core.specs.Run.{IsBeforeOutput, IsQuiet};

use crate::Status;
use crate::answering::SessionFault;
use crate::halting::{report, status_of_fault};
use cohere_inputs::cells_input;
use equitable::{CellClaim, CellVerdict, check_cells};
use neighbour_answers::cell_verdict;
use scheme_io::{Sink, Store, put_all};
use std::alloc::Global;

// Judges the claim, and writes the line of the verdict.
fn judge_cells<O: Sink>(
    alloc: Global,
    claim: &CellClaim,
    out: &mut O,
) -> Result<CellVerdict, SessionFault>
    requires { line_count claim.now < 2 ^ 32 }
    ensures verdict { IfOk result (IsVerdict claim.now) }
    ensures all { IfOk result (λ verdict. Appends (O.written out.old) (O.written out.new) (cell_verdict_text verdict)) }
    ensures front { IfErr result (λ fault. AddsUntil fault (TellsCellVerdict claim.now) (O.written out.old) (O.written out.new)) }
    ensures failed { IsErrOf result SessionFault.SinkFailed → Rose (O.faults out.old) (O.faults out.new) }
{
    let verdict = check_cells(alloc, claim)?;
    let text = cell_verdict(alloc, &verdict)?;
    put_all(out, &text)?;
    Ok(verdict)
}

/// Reads the trace, and only then judges its claim.
pub(crate) fn answer_check_cells<S: Store, O: Sink, E: Sink>(
    alloc: Global,
    trace: &str,
    store: &mut S,
    out: &mut O,
    err: &mut E,
) -> Status
    ensures ending { IsEnding (S.files store.old) (CheckCells trace.now) result (Rose (S.faults store.old) (S.faults store.new)) (Rose (O.faults out.old) (O.faults out.new))
        (O.written out.old) (O.written out.new) (AddsLine E.written E.faults err.old err.new) }
    ensures quiet { IsQuiet result → err.new ≡ err.old }
    ensures same_out { IsBeforeOutput result → out.new ≡ out.old }
    ensures same_files { S.files store.new ≡ S.files store.old }
{
    let claim = match cells_input(alloc, store, trace) {
        Ok(claim) => claim,
        Err(halt) => return report(err, halt),
    };
    match judge_cells(alloc, &claim, out) {
        Ok(CellVerdict::Accepted { .. }) => Status::Done,
        Ok(CellVerdict::Refused { .. }) => Status::CheckedNo,
        Err(fault) => status_of_fault(err, fault),
    }
}
