//! Questions, each with its words in one line, over files that many of them name.

use crate::runs::{Ending, File, done, ends_over, told};
use cohere_core::Status;
use std::alloc::Global;
use std::process::Abort;
use std::test::Fail;

/// The words of a question in one line, and what is written for it, or said.
pub(crate) type Question<'a> = (&'a str, &'a [u8]);

// The question ends so over these files, whichever visitor is handed in.
fn question_ends(
    rt: &impl Abort,
    alloc: Global,
    row: usize,
    question: &str,
    files: &[File<'_>],
    ending: Ending<'_>,
) -> Result<(), Fail> {
    let words: Vec<&str> = question.split_whitespace().collect(alloc)?;
    ends_over(rt, alloc, row, &words, files, ending)
}

/// Each question is answered over these files.
pub(crate) fn all_questions_answer(
    rt: &impl Abort,
    alloc: Global,
    files: &[File<'_>],
    rows: &[Question<'_>],
) -> Result<(), Fail> {
    for (row, (question, output)) in rows.iter().enumerate() {
        question_ends(rt, alloc, row, question, files, done(output))?;
    }
    Ok(())
}

/// Each question names a file that is not there, or one that is bad.
pub(crate) fn all_questions_tell(
    rt: &impl Abort,
    alloc: Global,
    files: &[File<'_>],
    status: Status,
    rows: &[Question<'_>],
) -> Result<(), Fail> {
    for (row, (question, line)) in rows.iter().enumerate() {
        question_ends(rt, alloc, row, question, files, told(status, line))?;
    }
    Ok(())
}
