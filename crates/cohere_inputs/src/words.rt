//! What the words of the program ask for.

ghost use Rattle.std.specs.Prelude.{◌≡◌, Some, None, MatchOption, IfSome};
ghost use Rattle.cohere_inputs.specs.Asked.{asked};
ghost use Rattle.cohere_inputs.specs.Task.{IsAsked};
ghost use Rattle.cohere_inputs.specs.Words.{further_task, task_of, texts};

use crate::ask_forms::{AskWords, cells_words, lattice_words, ring_words};
use crate::check_form::check_words;
use crate::demo_form::demo_words;
use crate::run_form::{RunWords, run_words};
use crate::table_form::{TableWords, table_words};

/// The greatest line of a relation's file that can be asked for.
pub const MOST_LINE: u32 = 1_000_000;

/// What the words ask for: one variant for each form.
#[derive(Drop)]
pub enum Task<'a> {
    /// Answers a script over a relation.
    Run(RunWords<'a>),
    /// Judges the trace in the file of this name.
    Check(&'a str),
    /// Answers the lines of the demonstration over the relation of this number.
    Demo(u32),
    /// Answers a question about a relation.
    Ask(AskWords<'a>),
    /// Judges the claim of cells in the file of this name.
    CheckCells(&'a str),
    /// Tells the parameters of an intersection array.
    Table(TableWords<'a>),
}

/// What the words ask for, where they fit a form.
pub fn task_of(words: &[String]) -> Option<Task<'_>>
    ensures task { MatchOption result (task_of (texts words.now) ≡ None) (λ task. task_of (texts words.now) ≡ Some (asked task)) }
    ensures within { IfSome result (λ task. IsAsked (asked task)) }
{
    let (word, words) = words.split_first()?;
    match word.as_str() {
        "run" => run_words(words).map(Task::Run),
        "check" => check_words(words).map(Task::Check),
        "demo" => Some(Task::Demo(demo_words(words)?)),
        word => further_task(word, words),
    }
}

// What the words ask for, where the first is that of no form above.
fn further_task<'a>(word: &str, words: &'a [String]) -> Option<Task<'a>>
    ensures task { MatchOption result (further_task word.now (texts words.now) ≡ None) (λ task. further_task word.now (texts words.now) ≡ Some (asked task)) }
    ensures within { IfSome result (λ task. IsAsked (asked task)) }
{
    match word {
        "ring" => ring_words(words).map(Task::Ask),
        "cells" => cells_words(words).map(Task::Ask),
        "check-cells" => check_words(words).map(Task::CheckCells),
        "table" => table_words(words).map(Task::Table),
        "lattice" => lattice_words(words).map(Task::Ask),
        _ => None,
    }
}
