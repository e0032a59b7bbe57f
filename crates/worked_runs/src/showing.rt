//! Traces that scripts show: each is put through a check.

use crate::runs::{CHECK, RUN, script_store, status_of, store_of};
use cohere_core::Status;
use scheme_io::{MemorySink, MemoryStore};
use std::alloc::{AllocError, Global};
use std::process::Abort;
use std::test::Fail;

/// Relation, script, answers, and of each trace among them its lines `stage` and the line of its
/// check. A text is whole where it ends with a line end, and else a front.
pub(crate) type Shown<'a> = (&'a [u8], &'a [u8], &'a [u8], &'a [u8]);

/// What the program writes for these words, when it ends with this status.
pub(crate) fn written(
    rt: &impl Abort,
    alloc: Global,
    store: &mut MemoryStore,
    words: &[&str],
    status: Status,
) -> Result<Vec<u8>, Fail> {
    let mut out = MemorySink::new(alloc, 1000, 1_000_000)?;
    let mut err = MemorySink::new(alloc, 1000, 1000)?;
    let answered = status_of(alloc, words, store, &mut out, &mut err)?;
    assert_eq!(rt; answered, status);
    Ok(Vec::from_slice(alloc, out.written())?)
}

// What the script writes over the relation.
fn answers_of(
    rt: &impl Abort,
    alloc: Global,
    relation: &[u8],
    script: &[u8],
) -> Result<Vec<u8>, Fail> {
    let mut store = script_store(alloc, relation, script)?;
    written(rt, alloc, &mut store, &RUN, Status::Done)
}

// The traces among the answers.
fn traces_in(alloc: Global, answers: &[u8]) -> Result<Vec<Vec<u8>>, AllocError> {
    let mut traces = Vec::new(alloc);
    let mut trace = Vec::new(alloc);
    for line in answers.split(|byte| *byte == b'\n') {
        let begins = line == b"trace 1".as_slice() || line == b"trace 2".as_slice();
        if trace.is_empty() && !begins {
            continue;
        }
        trace.extend_from_slice(line)?;
        trace.push(b'\n')?;
        if line == b"end".as_slice() {
            traces.push(trace)?;
            trace = Vec::new(alloc);
        }
    }
    Ok(traces)
}

// The lines `stage` of a trace, and the line of its check.
fn checked(rt: &impl Abort, alloc: Global, trace: &[u8]) -> Result<Vec<u8>, Fail> {
    let mut store = store_of(alloc, &[("T", trace)])?;
    let line = written(rt, alloc, &mut store, &CHECK, Status::Done)?;
    let mut text = Vec::new(alloc);
    for line in trace.split(|byte| *byte == b'\n') {
        if line == b"stage".as_slice() {
            text.extend_from_slice(b"stage\n")?;
        }
    }
    text.extend_from_slice(&line)?;
    Ok(text)
}

/// Whether a text is the wanted one: whole where that ends with a line end, and else a front.
pub(crate) fn fits(text: &[u8], wanted: &[u8]) -> bool {
    if wanted.ends_with(b"\n") {
        text == wanted
    } else {
        text.starts_with(wanted)
    }
}

// The script is answered so over the relation, and its traces are checked so.
fn shows(
    rt: &impl Abort,
    alloc: Global,
    row: usize,
    relation: &[u8],
    script: &[u8],
    output: &[u8],
    checks: &[u8],
) -> Result<(), Fail> {
    let answers = answers_of(rt, alloc, relation, script)?;
    assert_eq!(rt; fits(&answers, output), true, "row {row}");
    let mut all = Vec::new(alloc);
    for trace in &traces_in(alloc, &answers)? {
        all.extend_from_slice(&checked(rt, alloc, trace)?)?;
    }
    assert_eq!(rt; fits(&all, checks), true, "row {row}");
    Ok(())
}

/// The script of each row is answered so, and its traces are checked so.
pub(crate) fn all_show(rt: &impl Abort, alloc: Global, rows: &[Shown<'_>]) -> Result<(), Fail> {
    for (row, (relation, script, output, checks)) in rows.iter().enumerate() {
        shows(rt, alloc, row, relation, script, output, checks)?;
    }
    Ok(())
}
