//! The form `check TRACE`: the claim of a trace is judged.

ghost use Rattle.std.specs.Prelude.{◌≡◌, ◌^◌, ◌<◌, ◌≤◌, length, IfErr, IfOk, IsErrOf};
ghost use Rattle.scheme_io.specs.Count.{Rose};
ghost use Rattle.std.specs.Io.KnownBytes.{Appends};
ghost use Rattle.trace_text.specs.BadLines.{line_count};
ghost use Rattle.trace_check.specs.Verdict.{IsVerdict};
ghost use Rattle.report_text.specs.Verdicts.{verdict_text_of};
ghost use Rattle.cohere_inputs.specs.Said.{AddsLine};
ghost use Rattle.cohere_inputs.specs.Task.{Check};
ghost use Rattle.cohere_core.specs.Added.{AddsUntil};
ghost use Rattle.cohere_core.specs.CheckForm.{TellsVerdict};
ghost use Rattle.cohere_core.specs.Ending.{IsEnding};
ghost use Rattle.cohere_core.specs.Run.{IsBeforeOutput, IsQuiet};

use crate::Status;
use crate::answering::SessionFault;
use crate::halting::{report, status_of_fault};
use cohere_inputs::check_input;
use report_text::verdict_text;
use scheme_io::{Sink, Store, put_all};
use std::alloc::Global;
use trace_check::{Verdict, check};
use trace_text::Claim;

// Judges the claim, and writes the line of the verdict.
fn judge<O: Sink>(alloc: Global, claim: &Claim, out: &mut O) -> Result<Verdict, SessionFault>
    requires has_stage { 1 ≤ length claim.now.chain }
    requires lines { line_count claim.now < 2 ^ 32 }
    ensures verdict { IfOk result (IsVerdict claim.now) }
    ensures all { IfOk result (λ verdict. Appends (O.written out.old) (O.written out.new) (verdict_text_of verdict)) }
    ensures front { IfErr result (λ fault. AddsUntil fault (TellsVerdict claim.now) (O.written out.old) (O.written out.new)) }
    ensures failed { IsErrOf result SessionFault.SinkFailed → Rose (O.faults out.old) (O.faults out.new) }
{
    let verdict = check(alloc, claim)?;
    let text = verdict_text(alloc, &verdict)?;
    put_all(out, &text)?;
    Ok(verdict)
}

/// Reads the trace, and only then judges its claim.
pub(crate) fn answer_check<S: Store, O: Sink, E: Sink>(
    alloc: Global,
    trace: &str,
    store: &mut S,
    out: &mut O,
    err: &mut E,
) -> Status
    ensures ending { IsEnding (S.files store.old) (Check trace.now) result (Rose (S.faults store.old) (S.faults store.new)) (Rose (O.faults out.old) (O.faults out.new))
        (O.written out.old) (O.written out.new) (AddsLine E.written E.faults err.old err.new) }
    ensures quiet { IsQuiet result → err.new ≡ err.old }
    ensures same_out { IsBeforeOutput result → out.new ≡ out.old }
    ensures same_files { S.files store.new ≡ S.files store.old }
{
    let claim = match check_input(alloc, store, trace) {
        Ok(claim) => claim,
        Err(halt) => return report(err, halt),
    };
    match judge(alloc, &claim, out) {
        Ok(Verdict::Accepted { .. }) => Status::Done,
        Ok(Verdict::Refused { .. }) => Status::CheckedNo,
        Err(fault) => status_of_fault(err, fault),
    }
}
