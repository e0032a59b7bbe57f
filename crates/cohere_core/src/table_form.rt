//! The form `table D NUMBER...`: the parameters of an intersection array are told.

ghost use Rattle.std.specs.Prelude.{◌≡◌, IfErr, IsErrOf, None, OnOk};
ghost use Rattle.scheme_io.specs.Count.{Rose};
ghost use Rattle.array_tables.specs.Parameters.{array_of};
ghost use Rattle.neighbour_answers.specs.TableAnswer.{table_answer_of};
ghost use Rattle.cohere_inputs.specs.Asked.{asked_table};
ghost use Rattle.cohere_inputs.specs.Said.{AddsLine};
ghost use Rattle.cohere_inputs.specs.Task.{IsAsked, Table};
ghost use Rattle.cohere_core.specs.Added.{AddsText, AddsUntil};
ghost use Rattle.cohere_core.specs.Ending.{IsEndingWithoutFiles};
ghost use Rattle.cohere_core.specs.Run.{IsBeforeOutput, IsQuiet};

use crate::Status;
use crate::answering::SessionFault;
use crate::halting::status_of_fault;
use cohere_inputs::TableWords;
use neighbour_answers::table_answer;
use scheme_io::{Sink, put_all};
use std::alloc::Global;

// Makes the answer, and writes it.
fn write_table<O: Sink>(
    alloc: Global,
    words: &TableWords<'_>,
    out: &mut O,
) -> Result<(), SessionFault>
    requires { IsAsked (Table (asked_table words.now)) }
    ensures all { OnOk result (AddsText (λ t. t ≡ table_answer_of (array_of words.now.b words.now.c)) (O.written out.old) (O.written out.new)) }
    ensures front { IfErr result (λ fault.
        AddsUntil fault (λ t. t ≡ table_answer_of (array_of words.now.b words.now.c)) (O.written out.old) (O.written out.new)) }
    ensures failed { IsErrOf result SessionFault.SinkFailed → Rose (O.faults out.old) (O.faults out.new) }
{
    let b = words.b.list(alloc)?;
    let c = words.c.list(alloc)?;
    let text = table_answer(alloc, &b, &c)?;
    put_all(out, &text)?;
    Ok(())
}

/// Tells the parameters of the array, or why it has none.
pub(crate) fn answer_table<O: Sink, E: Sink>(
    alloc: Global,
    words: TableWords<'_>,
    out: &mut O,
    err: &mut E,
) -> Status
    requires { IsAsked (Table (asked_table words)) }
    ensures ending { IsEndingWithoutFiles (Table (asked_table words.entry)) result (Rose (O.faults out.old) (O.faults out.new))
        (O.written out.old) (O.written out.new) (AddsLine E.written E.faults err.old err.new) }
    ensures quiet { IsQuiet result → err.new ≡ err.old }
    ensures same_out { IsBeforeOutput result → out.new ≡ out.old }
{
    match write_table(alloc, &words, out) {
        Ok(()) => Status::Done,
        Err(fault) => status_of_fault(err, fault),
    }
}
