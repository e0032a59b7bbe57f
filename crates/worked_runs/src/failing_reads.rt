//! Stores that fail, at each call in turn: the file is told, nothing is answered, and no memory is
//! told to be wanting. Files come whole, and in pieces of one byte.

use crate::runs::{File, ends, failing_store, told, wrote};
use crate::tasks::{
    ACCEPTED, ANSWERS, CELL_CHECKS, PRODUCTS, QUESTIONS, REFUSED, SEVEN, TABLE, Task, joined,
};
use cohere_core::Status;
use scheme_io::MemoryStore;
use std::alloc::Global;
use std::process::Abort;
use std::test::Fail;

// How many calls load a file: its start, its reads, and a read at its end.
fn calls_of(bytes: &[u8], is_short: bool) -> usize {
    let reads = if is_short { bytes.len() } else { 1 };
    reads + 2
}

// The name of the file that is loaded at this call, if any is.
fn name_at<'a>(files: &[File<'a>], is_short: bool, call: usize) -> Option<&'a str> {
    let mut left = call;
    for (name, bytes) in files {
        let calls = calls_of(bytes, is_short);
        if left < calls {
            return Some(name);
        }
        left -= calls;
    }
    None
}

// The file could not be read.
fn tells(
    rt: &impl Abort,
    alloc: Global,
    row: usize,
    words: &[&str],
    store: &mut MemoryStore,
    name: &str,
) -> Result<(), Fail> {
    let line = format!(in alloc; "cohere: cannot read {name}\n")?;
    let unread = told(Status::StoreFailed, line.as_bytes());
    ends(rt, alloc, row, words, store, unread)
}

// All is answered.
fn answers(
    rt: &impl Abort,
    alloc: Global,
    row: usize,
    task: &Task<'_>,
    store: &mut MemoryStore,
) -> Result<(), Fail> {
    let (words, _, status, pieces) = task;
    let output = joined(alloc, pieces)?;
    ends(rt, alloc, row, words, store, wrote(*status, &output))
}

// The task ends so where the store fails at this call. Tells whether there is such a call.
fn fails_at(
    rt: &impl Abort,
    alloc: Global,
    task: &Task<'_>,
    is_short: bool,
    call: u32,
) -> Result<bool, Fail> {
    let (words, files, _, _) = task;
    let row = call as usize;
    let mut store = failing_store(alloc, files, call)?;
    if is_short {
        store.short(1);
    }
    match name_at(files, is_short, row) {
        Some(name) => {
            tells(rt, alloc, row, words, &mut store, name)?;
            Ok(true)
        }
        None => {
            answers(rt, alloc, row, task, &mut store)?;
            Ok(false)
        }
    }
}

// The store fails at each call of the task in turn, until there is no such call.
fn fails_at_each_call(
    rt: &impl Abort,
    alloc: Global,
    task: &Task<'_>,
    is_short: bool,
) -> Result<(), Fail> {
    for call in 0..1000 {
        if !fails_at(rt, alloc, task, is_short, call)? {
            return Ok(());
        }
    }
    panic!(rt; "the task has more than 1000 calls");
}

#[test]
fn reads_of_scripts_that_fail(rt: HostRuntime) -> Result<(), Fail> {
    assert_eq!(rt; Status::StoreFailed.code(), 4);
    for is_short in [false, true] {
        fails_at_each_call(&rt, rt.alloc(), &ANSWERS, is_short)?;
        fails_at_each_call(&rt, rt.alloc(), &PRODUCTS, is_short)?;
    }
    Ok(())
}

#[test]
fn reads_of_traces_that_fail(rt: HostRuntime) -> Result<(), Fail> {
    for is_short in [false, true] {
        fails_at_each_call(&rt, rt.alloc(), &ACCEPTED, is_short)?;
        fails_at_each_call(&rt, rt.alloc(), &REFUSED, is_short)?;
    }
    Ok(())
}

#[test]
fn reads_of_questions_that_fail(rt: HostRuntime) -> Result<(), Fail> {
    for task in &QUESTIONS {
        fails_at_each_call(&rt, rt.alloc(), task, false)?;
        fails_at_each_call(&rt, rt.alloc(), task, true)?;
    }
    Ok(())
}

#[test]
fn reads_of_traces_of_cells_that_fail(rt: HostRuntime) -> Result<(), Fail> {
    for task in &CELL_CHECKS {
        fails_at_each_call(&rt, rt.alloc(), task, false)?;
        fails_at_each_call(&rt, rt.alloc(), task, true)?;
    }
    Ok(())
}

// They have no call that could fail.
#[test]
fn a_demonstration_and_a_table_that_read_nothing(rt: HostRuntime) -> Result<(), Fail> {
    fails_at_each_call(&rt, rt.alloc(), &SEVEN, false)?;
    fails_at_each_call(&rt, rt.alloc(), &TABLE, false)
}
