//! Streams for errors that fail, at each call in turn and where they are full: a front of the line is
//! said, and the status is the same.

use crate::runs::{RUN, Told, USAGE, same_status, same_text, status_by, store_of};
use crate::tasks::CUBE;
use cohere_core::Status;
use scheme_io::MemorySink;
use std::alloc::Global;
use std::process::Abort;
use std::test::Fail;
use visitors::{Refusing, Visitor};

// Runs that say a line: the words fit no form, a file is not there, a script stands in the place of
// a relation, the visitor refuses its first entry, and a file is no trace.
const ROWS: [Told<'static>; 5] = [
    (&["run", "R"], &[], Status::Usage, USAGE),
    (
        &["run", "R", "T"],
        &[("R", CUBE)],
        Status::StoreFailed,
        b"cohere: cannot read T\n",
    ),
    (
        &["run", "S", "S"],
        &[("S", b"show\n")],
        Status::BadInput,
        b"cohere: S: WrongLength at 4\n",
    ),
    (
        &RUN,
        &[("R", CUBE), ("S", b"mergings 10\n")],
        Status::NoMemory,
        b"cohere: out of memory\n",
    ),
    (
        &["check", "T"],
        &[("T", b"trace 3\n")],
        Status::BadInput,
        b"cohere: T: line 1 Head\n",
    ),
];

// Questions: the table is not there, a relation and a trace of cells are bad, the visitor refuses its
// first fusion, and the words lack a number.
const QUESTIONS: [Told<'static>; 6] = [
    (
        &["ring", "G", "0"],
        &[],
        Status::StoreFailed,
        b"cohere: cannot read G\n",
    ),
    (
        &["cells", "R", "1"],
        &[("R", b"DQd\n")],
        Status::BadInput,
        b"cohere: R: PadBits at 2\n",
    ),
    (
        &["check-cells", "T"],
        &[("T", b"cells 2\n")],
        Status::BadInput,
        b"cohere: T: line 1 Head\n",
    ),
    (
        &["lattice", "R"],
        &[("R", CUBE)],
        Status::NoMemory,
        b"cohere: out of memory\n",
    ),
    (
        &["lattice", "R", "0", "0"],
        &[("R", CUBE)],
        Status::NoMemory,
        b"cohere: out of memory\n",
    ),
    (&["table", "2", "2", "1", "1"], &[], Status::Usage, USAGE),
];

// A run ends with the status, and says this much on the stream. The visitor refuses every entry.
fn says(
    rt: &impl Abort,
    alloc: Global,
    row: &Told<'_>,
    err: &mut MemorySink,
    front: &[u8],
) -> Result<(), Fail> {
    let (words, files, wanted, _) = row;
    let mut store = store_of(alloc, files)?;
    let mut out = MemorySink::new(alloc, 16, 1000)?;
    let visitor: Box<dyn Visitor> = Box::new(alloc, Refusing::new(alloc, 0))?;
    let status = status_by(alloc, words, &mut store, &mut out, err, visitor)?;
    same_status(rt, front.len(), status, *wanted);
    same_text(rt, front.len(), out.written(), b"");
    same_text(rt, front.len(), err.written(), front);
    Ok(())
}

// The stream takes a byte a call, and fails at a call.
fn says_until(
    rt: &impl Abort,
    alloc: Global,
    row: &Told<'_>,
    call: u32,
    front: &[u8],
) -> Result<(), Fail> {
    let mut err = MemorySink::new(alloc, 1, 1000)?;
    err.fail_at(call)?;
    says(rt, alloc, row, &mut err, front)
}

// The stream is full after so many bytes.
fn says_within(
    rt: &impl Abort,
    alloc: Global,
    row: &Told<'_>,
    room: u32,
    front: &[u8],
) -> Result<(), Fail> {
    let mut err = MemorySink::new(alloc, 2, room)?;
    says(rt, alloc, row, &mut err, front)
}

// At each byte of the line.
fn says_each_front(rt: &impl Abort, alloc: Global, row: &Told<'_>) -> Result<(), Fail> {
    let (_, _, _, line) = row;
    for count in 0..1000u32 {
        if count as usize >= line.len() {
            return Ok(());
        }
        let front = &line[..count as usize];
        says_until(rt, alloc, row, count, front)?;
        says_within(rt, alloc, row, count, front)?;
    }
    panic!(rt; "the line has more than 1000 bytes");
}

#[test]
fn errors_that_fail(rt: HostRuntime) -> Result<(), Fail> {
    for row in ROWS {
        says_each_front(&rt, rt.alloc(), &row)?;
    }
    Ok(())
}

#[test]
fn errors_of_questions_that_fail(rt: HostRuntime) -> Result<(), Fail> {
    for row in QUESTIONS {
        says_each_front(&rt, rt.alloc(), &row)?;
    }
    Ok(())
}
