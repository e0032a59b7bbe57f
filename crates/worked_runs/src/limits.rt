//! Limits, each at its last number and one past it.

use crate::judged_traces::TRACE;
use crate::runs::{
    CHECK, Ending, File, Script, all_answer, all_scripts_answer, all_scripts_are_bad, all_tell,
    done, ends, script_ends, store_of, told,
};
use crate::texts::{padded, repeated};
use cohere_core::Status;
use std::alloc::Global;
use std::process::Abort;
use std::test::Fail;

const RAW_2: &[u8] = b"raw points 2 colours 2\n0 1\n1 0\n";

// Relations and scripts of one line or a few, within the limits.
const WITHIN: [Script<'static>; 3] = [
    (
        b"matrix 1\n1048575\n",
        b"raw",
        b"raw points 1 colours 1\n1048575\n",
    ),
    (
        b"@\n",
        b"set 0 0 1048575\nset 0 0 1048576\nraw\n",
        b"ok points 1 rank 1\nrefused ColourRange\nraw points 1 colours 1\n1048575\n",
    ),
    (b"A_\n", b"mergings 10000", b"mergings\n0 1\nend\n"),
];

// And some that are past one.
const PAST: [Script<'static>; 4] = [
    (b"~?C@\n", b"raw", b"cohere: R: TooManyPoints at 0\n"),
    (b"matrix 257\n", b"raw", b"cohere: R: TooManyPoints at 7\n"),
    (
        b"matrix 1\n1048576\n",
        b"raw",
        b"cohere: R: ColourTooLarge at 9\n",
    ),
    (b"A_\n", b"mergings 10001", b"cohere: S: line 1 BadLimit\n"),
];

#[test]
fn limits_of_numbers(rt: HostRuntime) -> Result<(), Fail> {
    all_scripts_answer(&rt, rt.alloc(), &WITHIN)?;
    all_scripts_are_bad(&rt, rt.alloc(), &PAST)
}

// The last line that can be asked for: it is there, or it is not.
const LAST_LINE: [&str; 4] = ["run", "R", "S", "1000000"];

#[test]
fn limits_of_lines_that_are_asked_for(rt: HostRuntime) -> Result<(), Fail> {
    let relation = repeated(rt.alloc(), b"", b"\n", 999_999, b"A_\n")?;
    let there: [File<'_>; 2] = [("R", &relation), ("S", b"raw")];
    all_answer(&rt, rt.alloc(), &[(&LAST_LINE, &there, RAW_2)])?;
    let short: [File<'_>; 2] = [("R", b"A_\n"), ("S", b"raw")];
    let line = b"cohere: R: NoLine at 3\n";
    all_tell(
        &rt,
        rt.alloc(),
        &[(&LAST_LINE, &short, Status::BadInput, line)],
    )
}

const CLASSES_256: &[u8] = b"classes 2
class 0 size 256 valency 1 transpose 0 pair 0 0 fibres 0 0
class 1 size 65280 valency 255 transpose 1 pair 0 1 fibres 0 0
";

// Points, of a graph without edges and of a matrix of zeros.
#[test]
fn limits_of_points(rt: HostRuntime) -> Result<(), Fail> {
    let alloc = rt.alloc();
    let graph = padded(alloc, b"~?C?", 5444)?;
    let row = repeated(alloc, b"0", b" 0", 255, b"\n")?;
    let matrix = repeated(alloc, b"matrix 256\n", &row, 256, b"")?;
    let rows: [Script<'_>; 2] = [
        (&graph, b"classes", CLASSES_256),
        (&matrix, b"classes", CLASSES_256),
    ];
    all_scripts_answer(&rt, alloc, &rows)
}

// The lines of a script, and what it asks for: positions of the history, and the lines.
#[test]
fn limits_of_scripts(rt: HostRuntime) -> Result<(), Fail> {
    let alloc = rt.alloc();
    let edits = repeated(alloc, b"", b"adopt\n", 257, b"")?;
    let full = b"refused HistoryFull\n";
    let answers = repeated(alloc, b"", b"ok points 2 rank 2\n", 256, full)?;
    let lines = repeated(alloc, b"raw\n", b"#\n", 9_999, b"")?;
    let rows: [Script<'_>; 2] = [(b"A_\n", &edits, &answers), (b"A_\n", &lines, RAW_2)];
    all_scripts_answer(&rt, alloc, &rows)
}

#[test]
fn more_lines_than_a_script_may_have(rt: HostRuntime) -> Result<(), Fail> {
    let lines = repeated(rt.alloc(), b"raw\n", b"#\n", 10_000, b"")?;
    let line = b"cohere: S: line 10001 TooManyLines\n";
    all_scripts_are_bad(&rt, rt.alloc(), &[(b"A_\n", &lines, line)])
}

// A relation of so many bytes.
fn relation_of(
    rt: &impl Abort,
    alloc: Global,
    size: usize,
    ending: Ending<'_>,
) -> Result<(), Fail> {
    let relation = padded(alloc, b"A_\n", size)?;
    script_ends(rt, alloc, size, &relation, b"raw", ending)
}

// A script of so many bytes.
fn script_of(rt: &impl Abort, alloc: Global, size: usize, ending: Ending<'_>) -> Result<(), Fail> {
    let script = padded(alloc, b"raw\n#", size)?;
    script_ends(rt, alloc, size, b"A_\n", &script, ending)
}

// A trace of so many bytes, more than there may be.
fn trace_of(rt: &impl Abort, alloc: Global, size: usize, ending: Ending<'_>) -> Result<(), Fail> {
    let trace = padded(alloc, TRACE, size)?;
    let mut store = store_of(alloc, &[("T", &trace)])?;
    ends(rt, alloc, size, &CHECK, &mut store, ending)
}

#[test]
fn limits_of_bytes(rt: HostRuntime) -> Result<(), Fail> {
    let alloc = rt.alloc();
    relation_of(&rt, alloc, 4_194_304, done(RAW_2))?;
    let long = told(Status::BadInput, b"cohere: R: TooLong\n");
    relation_of(&rt, alloc, 4_194_305, long)?;
    script_of(&rt, alloc, 1_048_576, done(RAW_2))?;
    let long = told(Status::BadInput, b"cohere: S: TooLong\n");
    script_of(&rt, alloc, 1_048_577, long)
}

#[test]
fn a_trace_of_too_many_bytes(rt: HostRuntime) -> Result<(), Fail> {
    let long = told(Status::BadInput, b"cohere: T: TooLong\n");
    trace_of(&rt, rt.alloc(), 268_435_457, long)
}
