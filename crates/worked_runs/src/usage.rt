//! Words that fit no form: no file is read for them.

use crate::runs::{USAGE, ends_for_both, failing_store, told};
use cohere_core::Status;
use std::alloc::Global;
use std::process::Abort;
use std::test::Fail;

const WORDS: [&[&str]; 15] = [
    &["run", "R"],
    &["run", "-", "-"],
    &["run", "R", "S", "01"],
    &["run", "R", "S", "0"],
    &["run", "R", "S", "1000001"],
    &["check"],
    &["check", "T", "U"],
    &["demo", "1", "2"],
    &[],
    &["demo"],
    &["demo", "07"],
    &["demo", "x"],
    &["demo", ""],
    &["demo", "7", "7"],
    &["demo", "4294967296"],
];

/// The usage line is told. No file is read: a store whose first call would fail is never called.
pub(crate) fn fits_no_form(
    rt: &impl Abort,
    alloc: Global,
    row: usize,
    words: &[&str],
) -> Result<(), Fail> {
    let mut store = failing_store(alloc, &[("R", b"A_"), ("S", b"show")], 0)?;
    let usage = told(Status::Usage, USAGE);
    ends_for_both(rt, alloc, row, words, &mut store, usage)
}

// Words of the questions beside scripts: too few or too many, words that are no numbers, and numbers
// that no array has.
const QUESTIONS: [&[&str]; 20] = [
    &["ring"],
    &["ring", "R"],
    &["ring", "R", "x"],
    &["ring", "R", "0", "01"],
    &["ring", "R", "4294967296"],
    &["table"],
    &["table", "1"],
    &["table", "0"],
    &["table", "33", "1"],
    &["table", "2", "2", "1", "1"],
    &["table", "2", "2", "1", "1", "1", "1"],
    &["table", "1", "3", "x"],
    &["table", "01", "3", "1"],
    &["table", "1", "0", "1"],
    &["table", "1", "256", "1"],
    &["lattice"],
    &["lattice", "R", "0"],
    &["lattice", "R", "0", "0", "0"],
    &["lattice", "R", "0", "x"],
    &["lattice", "R", "00", "0"],
];

#[test]
fn words_that_fit_no_question(rt: HostRuntime) -> Result<(), Fail> {
    for (row, words) in QUESTIONS.iter().enumerate() {
        fits_no_form(&rt, rt.alloc(), row, words)?;
    }
    Ok(())
}

#[test]
fn words_that_fit_no_form(rt: HostRuntime) -> Result<(), Fail> {
    assert_eq!(rt; Status::Usage.code(), 2);
    for (row, words) in WORDS.iter().enumerate() {
        fits_no_form(&rt, rt.alloc(), row, words)?;
    }
    Ok(())
}
