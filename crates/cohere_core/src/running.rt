//! The top call.

ghost use Rattle.std.specs.Prelude.{◌≡◌, ◌≢◌, ◌≤◌, ◌⊎◌, ◌↔◌, Some, None};
ghost use Rattle.scheme_io.specs.Count.{Rose};
ghost use Rattle.cohere_inputs.specs.Asked.{asked};
ghost use Rattle.cohere_inputs.specs.Said.{AddsLine};
ghost use Rattle.cohere_inputs.specs.Task.{IsAsked};
ghost use Rattle.cohere_inputs.specs.Words.{texts, task_of, IfAsked};
ghost use Rattle.cohere_core.specs.Ending.{IsEnding};
ghost use Rattle.cohere_core.specs.Forms.{IfNothingIsLoaded};
ghost use Rattle.cohere_core.specs.Run.{ErrorLineAfter, FirstBadIsMissing, FirstBadIsText, IfNothingIsLoadedFor, IsBeforeOutput, IsQuiet, IsStatusWithoutFaults, LineAfter, MayAnswer, OutputAfter};

use crate::Status;
use crate::ask_forms::answer_ask;
use crate::cells_form::answer_check_cells;
use crate::check_form::answer_check;
use crate::demo_form::answer_demo;
use crate::run_form::answer_run;
use crate::table_form::answer_table;
use cohere_inputs::{Task, say_usage, task_of};
use scheme_io::{Sink, Store};
use std::alloc::Global;
use visitors::Visitor;

/// Does what the words ask for: reads the files that they name, and those that a script names, and
/// only then answers.
///
/// The answers go to `out`. After a status that is no `Done`, `CheckedNo` or `SinkFailed`, one line
/// that says why goes to `err`; a failure of `err` changes no status.
///
/// After `check`, `Done` says that the file is a trace of a claim that is accepted, and so that the
/// claimed colouring is the closure of the colours of its last stage (`trace_text::laws::l3`);
/// `CheckedNo` that it is a trace of a claim that is not, and that the line of its first bad line was
/// written. The claim is judged by `trace_check`, which searches for nothing. After `check-cells` it is
/// the same of a claim of cells (`equitable::laws::l11`).
///
/// The visitor meets the entries of the lists that a script or `lattice` asks for, one list after the
/// other. It is dropped at the end.
pub fn run<S: Store, O: Sink, E: Sink>(
    alloc: Global,
    words: &[String],
    store: &mut S,
    out: &mut O,
    err: &mut E,
    visitor: Box<dyn Visitor>,
) -> Status
    // The headline: what was added to the output.
    ensures output { IfAsked words.now (λ task. OutputAfter task result (S.files store.old) (O.written out.old) (O.written out.new)) }

    // What was added to the errors.
    ensures quiet { IsQuiet result → err.new ≡ err.old }
    ensures line { LineAfter result (AddsLine E.written E.faults err.old err.new) }
    ensures error_line { IfAsked words.now (λ task.
        ErrorLineAfter task result (S.files store.old) (Rose (S.faults store.old) (S.faults store.new)) (AddsLine E.written E.faults err.old err.new)) }

    // Usage comes exactly where the words fit no form. No file is loaded for such words, nor for a demonstration or a table.
    ensures usage { (result ≡ Status.Usage) ↔ (task_of (texts words.now) ≡ None) }
    ensures same_store { IfNothingIsLoadedFor (task_of (texts words.now)) (store.new ≡ store.old) }
    ensures same_out { IsBeforeOutput result → out.new ≡ out.old }

    // The other answers and their causes.
    ensures may_answer { IfAsked words.now (λ task. MayAnswer task result) }
    ensures bad_input { IfAsked words.now (λ task. result ≡ Status.BadInput → FirstBadIsText (S.files store.old) task) }
    ensures store_failed { IfAsked words.now (λ task. result ≡ Status.StoreFailed
        → Rose (S.faults store.old) (S.faults store.new) ⊎ FirstBadIsMissing (S.files store.old) task) }
    ensures sink_failed { result ≡ Status.SinkFailed → Rose (O.faults out.old) (O.faults out.new) }

    // Completeness: the status where no count of faults rose.
    ensures complete { ¬ Rose (S.faults store.old) (S.faults store.new) → ¬ Rose (O.faults out.old) (O.faults out.new)
        → IfAsked words.now (λ task. IsStatusWithoutFaults task result (S.files store.old)) }

    ensures same_files { S.files store.new ≡ S.files store.old }
{
    let mut visitor = visitor;
    match task_of(words) {
        Some(task) => carry_out(alloc, task, store, out, err, &mut *visitor),
        None => {
            say_usage(err);
            Status::Usage
        }
    }
}

// The same for a task: each form of words has its own function.
fn carry_out<S: Store, O: Sink, E: Sink>(
    alloc: Global,
    task: Task<'_>,
    store: &mut S,
    out: &mut O,
    err: &mut E,
    visitor: &mut dyn Visitor,
) -> Status
    requires { IsAsked (asked task) }
    ensures ending { IsEnding (S.files store.old) (asked task.entry) result (Rose (S.faults store.old) (S.faults store.new)) (Rose (O.faults out.old) (O.faults out.new))
        (O.written out.old) (O.written out.new) (AddsLine E.written E.faults err.old err.new) }
    ensures quiet { IsQuiet result → err.new ≡ err.old }
    ensures same_out { IsBeforeOutput result → out.new ≡ out.old }
    ensures same_files { S.files store.new ≡ S.files store.old }
    ensures no_usage { result ≢ Status.Usage }
    ensures same_store { IfNothingIsLoaded (asked task.entry) (store.new ≡ store.old) }
{
    match task {
        Task::Run(words) => answer_run(alloc, words, store, out, err, visitor),
        Task::Check(trace) => answer_check(alloc, trace, store, out, err),
        Task::Demo(number) => answer_demo(alloc, number, out, err, visitor),
        Task::Ask(words) => answer_ask(alloc, words, store, out, err, visitor),
        Task::CheckCells(trace) => answer_check_cells(alloc, trace, store, out, err),
        Task::Table(words) => answer_table(alloc, words, out, err),
    }
}
