//! The form `demo NUMBER`: lines are answered over a relation, and the chain that they leave is judged.

ghost use Rattle.std.specs.Prelude.{◌≡◌, IfErr, IfOk, OnOk, IsErrOf};
ghost use Rattle.scheme_io.specs.Count.{Rose};
ghost use Rattle.recolour_bench.specs.History.{IsHistory};
ghost use Rattle.cohere_inputs.specs.Said.{AddsLine};
ghost use Rattle.cohere_inputs.specs.Task.{Demo};
ghost use Rattle.cohere_core.specs.Added.{AddsText, AddsUntil};
ghost use Rattle.cohere_core.specs.DemoForm.{DemoOutput, IsClaimOf, TellsChecked, checked_line, demo_line};
ghost use Rattle.cohere_core.specs.Ending.{IsEndingWithoutFiles};
ghost use Rattle.cohere_core.specs.Run.{IsBeforeOutput, IsQuiet};

use crate::Status;
use crate::answering::{SessionFault, session};
use crate::halting::status_of_fault;
use crate::queries::traced;
use pair_colours::NoMemory;
use recolour_bench::Bench;
use scheme_demo::{demo_lines, demo_relation};
use scheme_io::{Sink, put_all};
use std::alloc::Global;
use text_lines::Text;
use trace_check::{Verdict, check};
use trace_text::{Claim, TraceFault, read_trace};
use visitors::Visitor;

// The first line.
fn head_text(alloc: Global, number: u32, points: u32) -> Result<Vec<u8>, NoMemory>
    ensures { IfOk result (λ text. text.items ≡ demo_line number points) }
{
    let mut text = Text::new(alloc);
    text.put_field(b"demo ", number)?;
    text.put_field(b" points ", points)?;
    text.put(b"\n")?;
    Ok(text.into_bytes())
}

// The last line.
fn accepted_text(alloc: Global, points: u32, rank: u32, stages: u32) -> Result<Vec<u8>, NoMemory>
    ensures { IfOk result (λ text. text.items ≡ checked_line points rank stages) }
{
    let mut text = Text::new(alloc);
    text.put_field(b"check accepted points ", points)?;
    text.put_field(b" rank ", rank)?;
    text.put_field(b" stages ", stages)?;
    text.put(b"\n")?;
    Ok(text.into_bytes())
}

// The claim of the present entry, written as a trace and read again.
fn claim_again(alloc: Global, bench: &Bench) -> Result<Claim, NoMemory>
    requires { IsHistory bench.now }
    ensures { IfOk result (IsClaimOf bench.now) }
{
    let text = traced(alloc, bench)?;
    match read_trace(alloc, &text) {
        Ok(claim) => Ok(claim),
        Err(TraceFault::NoMemory) => Err(NoMemory),
        Err(TraceFault::Text { .. }) => unreachable!(),
    }
}

// Judges the claim of the present entry, and makes the last line.
fn checked_text(alloc: Global, bench: &Bench) -> Result<Vec<u8>, NoMemory>
    requires { IsHistory bench.now }
    ensures { IfOk result (λ text. TellsChecked bench.now text.items) }
{
    let claim = claim_again(alloc, bench)?;
    let stages = claim.chain.as_slice().len() as u32;
    let verdict = check(alloc, &claim)?;
    match verdict {
        Verdict::Accepted { points, rank, .. } => accepted_text(alloc, points, rank, stages),
        Verdict::Refused { .. } => unreachable!(),
    }
}

// Writes the whole text of the demonstration.
fn demonstrate<O: Sink>(
    alloc: Global,
    number: u32,
    out: &mut O,
    visitor: &mut dyn Visitor,
) -> Result<(), SessionFault>
    ensures all { OnOk result (AddsText (DemoOutput number) (O.written out.old) (O.written out.new)) }
    ensures front { IfErr result (λ fault. AddsUntil fault (DemoOutput number) (O.written out.old) (O.written out.new)) }
    ensures failed { IsErrOf result SessionFault.SinkFailed → Rose (O.faults out.old) (O.faults out.new) }
{
    let relation = demo_relation(alloc, number)?;
    let lines = demo_lines(alloc)?;
    let head = head_text(alloc, number, relation.size())?;
    let mut bench = Bench::new(alloc, relation)?;
    put_all(out, &head)?;
    session(alloc, &mut bench, &lines, &[], out, visitor)?;
    let last = checked_text(alloc, &bench)?;
    put_all(out, &last)?;
    Ok(())
}

/// Answers the lines of the demonstration over the relation of the number, and judges the trace of
/// the chain that they leave, which is always accepted.
pub(crate) fn answer_demo<O: Sink, E: Sink>(
    alloc: Global,
    number: u32,
    out: &mut O,
    err: &mut E,
    visitor: &mut dyn Visitor,
) -> Status
    ensures ending { IsEndingWithoutFiles (Demo number) result (Rose (O.faults out.old) (O.faults out.new))
        (O.written out.old) (O.written out.new) (AddsLine E.written E.faults err.old err.new) }
    ensures quiet { IsQuiet result → err.new ≡ err.old }
    ensures same_out { IsBeforeOutput result → out.new ≡ out.old }
{
    match demonstrate(alloc, number, out, visitor) {
        Ok(()) => Status::Done,
        Err(fault) => status_of_fault(err, fault),
    }
}
