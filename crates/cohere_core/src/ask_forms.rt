//! The forms `ring TABLE COLOUR...`, `cells RELATION COLOUR...` and `lattice RELATION [I J]`: a
//! question about a relation is answered.

ghost use Rattle.std.specs.Prelude.{◌≡◌, IfErr, IfOk, IsErrOf, OnOk};
ghost use Rattle.scheme_io.specs.Count.{Rose};
ghost use Rattle.pair_colours.specs.Colouring.{IsRawColouring};
ghost use Rattle.cohere_inputs.specs.Asked.{asked_ask, asked_question};
ghost use Rattle.cohere_inputs.specs.Said.{AddsLine};
ghost use Rattle.cohere_inputs.specs.Task.{Ask};
ghost use Rattle.cohere_core.specs.Added.{AddsText, AddsUntil};
ghost use Rattle.cohere_core.specs.AskForms.{AnswersQuestion};
ghost use Rattle.cohere_core.specs.Ending.{IsEnding};
ghost use Rattle.cohere_core.specs.Run.{IsBeforeOutput, IsQuiet};

use crate::Status;
use crate::answering::SessionFault;
use crate::halting::{report, status_of_fault};
use cohere_inputs::{AskWords, Question, ask_input};
use neighbour_answers::{cells_answer, common_answer, lattice_answer, ring_answer};
use pair_colours::{Colouring, NoMemory};
use scheme_io::{Sink, Store, put_all};
use std::alloc::Global;
use visitors::Visitor;
use wl_refine::close;

// The answer to a question about a relation.
fn answer_to(
    alloc: Global,
    relation: &Colouring,
    question: &Question<'_>,
    visitor: &mut dyn Visitor,
) -> Result<Vec<u8>, NoMemory>
    requires { IsRawColouring relation.now }
    ensures { IfOk result (λ text. AnswersQuestion relation.now (asked_question question.now) text.items) }
{
    match question {
        Question::Ring(colours) => {
            let colours = colours.list(alloc)?;
            ring_answer(alloc, relation, &colours)
        }
        Question::Cells(colours) => {
            let colours = colours.list(alloc)?;
            cells_answer(alloc, relation, &colours)
        }
        Question::Lattice => {
            let closed = close(alloc, relation)?;
            lattice_answer(alloc, &closed.matrix, visitor)
        }
        Question::Common(i, j) => {
            let closed = close(alloc, relation)?;
            common_answer(alloc, &closed.matrix, *i, *j, visitor)
        }
    }
}

// Answers the question, and writes the answer.
fn write_answer<O: Sink>(
    alloc: Global,
    relation: &Colouring,
    question: &Question<'_>,
    out: &mut O,
    visitor: &mut dyn Visitor,
) -> Result<(), SessionFault>
    requires { IsRawColouring relation.now }
    ensures all { OnOk result (AddsText (AnswersQuestion relation.now (asked_question question.now)) (O.written out.old) (O.written out.new)) }
    ensures front { IfErr result (λ fault.
        AddsUntil fault (AnswersQuestion relation.now (asked_question question.now)) (O.written out.old) (O.written out.new)) }
    ensures failed { IsErrOf result SessionFault.SinkFailed → Rose (O.faults out.old) (O.faults out.new) }
{
    let text = answer_to(alloc, relation, question, visitor)?;
    put_all(out, &text)?;
    Ok(())
}

/// Reads the relation, and only then answers the question.
pub(crate) fn answer_ask<S: Store, O: Sink, E: Sink>(
    alloc: Global,
    words: AskWords<'_>,
    store: &mut S,
    out: &mut O,
    err: &mut E,
    visitor: &mut dyn Visitor,
) -> Status
    ensures ending { IsEnding (S.files store.old) (Ask (asked_ask words.entry)) result (Rose (S.faults store.old) (S.faults store.new)) (Rose (O.faults out.old) (O.faults out.new))
        (O.written out.old) (O.written out.new) (AddsLine E.written E.faults err.old err.new) }
    ensures quiet { IsQuiet result → err.new ≡ err.old }
    ensures same_out { IsBeforeOutput result → out.new ≡ out.old }
    ensures same_files { S.files store.new ≡ S.files store.old }
{
    let relation = match ask_input(alloc, store, &words) {
        Ok(relation) => relation,
        Err(halt) => return report(err, halt),
    };
    match write_answer(alloc, &relation, &words.question, out, visitor) {
        Ok(()) => Status::Done,
        Err(fault) => status_of_fault(err, fault),
    }
}
