//! The form `run RELATION SCRIPT [LINE]`: a script is answered over a relation.

ghost use Rattle.std.specs.Prelude.{◌≡◌};
ghost use Rattle.scheme_io.specs.Count.{Rose};
ghost use Rattle.cohere_inputs.specs.Asked.{asked_run};
ghost use Rattle.cohere_inputs.specs.Said.{AddsLine};
ghost use Rattle.cohere_inputs.specs.Task.{IsAsked, Run};
ghost use Rattle.cohere_core.specs.Ending.{IsEnding};
ghost use Rattle.cohere_core.specs.Run.{IsBeforeOutput, IsQuiet};

use crate::Status;
use crate::answering::answer_script;
use crate::halting::{status_of_fault, status_of_halt};
use cohere_inputs::{RunWords, run_inputs};
use scheme_io::{Sink, Store};
use std::alloc::Global;
use visitors::Visitor;

/// Reads the relation, the script and the files of its products, and only then answers.
pub(crate) fn answer_run<S: Store, O: Sink, E: Sink>(
    alloc: Global,
    words: RunWords<'_>,
    store: &mut S,
    out: &mut O,
    err: &mut E,
    visitor: &mut dyn Visitor,
) -> Status
    requires { IsAsked (Run (asked_run words)) }
    ensures ending { IsEnding (S.files store.old) (Run (asked_run words.entry)) result (Rose (S.faults store.old) (S.faults store.new)) (Rose (O.faults out.old) (O.faults out.new))
        (O.written out.old) (O.written out.new) (AddsLine E.written E.faults err.old err.new) }
    ensures quiet { IsQuiet result → err.new ≡ err.old }
    ensures same_out { IsBeforeOutput result → out.new ≡ out.old }
    ensures same_files { S.files store.new ≡ S.files store.old }
{
    let inputs = match run_inputs(alloc, store, words, err) {
        Ok(inputs) => inputs,
        Err(why) => return status_of_halt(why),
    };
    match answer_script(
        alloc,
        inputs.relation,
        &inputs.lines,
        &inputs.products,
        out,
        visitor,
    ) {
        Ok(()) => Status::Done,
        Err(fault) => status_of_fault(err, fault),
    }
}
