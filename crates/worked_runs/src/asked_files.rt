//! The files of each form: which are loaded, in which order they are judged, and the first bad one.
//! For a store in memory `-` is a name as any other.

use crate::judged_cells::{CELLS, CELLS_YES};
use crate::judged_traces::{TRACE, YES};
use crate::runs::{Answered, RUN, Told, all_answer, all_tell, ends_over, told};
use crate::usage::fits_no_form;
use cohere_core::Status;
use std::alloc::Global;
use std::process::Abort;
use std::test::Fail;

// Words, the name of the file that is loaded first, a text that it may not have, and what is told of
// it.
type FirstFile<'a> = (&'a [&'a str], &'a str, &'a [u8], &'a str);

// Graphs with padding that is not zero: the line after the first is not read.
const GRAPHS: &[u8] = b"DQd\nA_\n";

const WRONG: &str = "PadBits at 2";

// The first file of each form, by a name and as `-`. It is judged before a question that would be
// refused.
const FIRST_FILES: [FirstFile<'static>; 14] = [
    (&RUN, "R", GRAPHS, WRONG),
    (&["run", "-", "S"], "-", GRAPHS, WRONG),
    (&["run", "R", "-", "2"], "R", b"A_\n", "NoLine at 3"),
    (&["check", "T"], "T", GRAPHS, "line 1 Head"),
    (&["check", "-"], "-", GRAPHS, "line 1 Head"),
    (&["ring", "G", "2000000"], "G", GRAPHS, WRONG),
    (&["ring", "-", "0", "1"], "-", GRAPHS, WRONG),
    (&["cells", "R", "9"], "R", GRAPHS, WRONG),
    (&["cells", "-", "1"], "-", GRAPHS, WRONG),
    (&["check-cells", "T"], "T", GRAPHS, "line 1 Head"),
    (&["check-cells", "-"], "-", TRACE, "line 1 Head"),
    (&["lattice", "R"], "R", GRAPHS, WRONG),
    (&["lattice", "-"], "-", GRAPHS, WRONG),
    (&["lattice", "-", "9", "9"], "-", GRAPHS, WRONG),
];

// The file is not there: nothing is answered, and it is named.
fn is_named_where_missing(
    rt: &impl Abort,
    alloc: Global,
    row: usize,
    words: &[&str],
    name: &str,
) -> Result<(), Fail> {
    let line = format!(in alloc; "cohere: cannot read {name}\n")?;
    let unread = told(Status::StoreFailed, line.as_bytes());
    ends_over(rt, alloc, row, words, &[("A", b"A_\n")], unread)
}

// The file has this text: nothing is answered, and it is named with what is wrong.
fn is_named_where_bad(
    rt: &impl Abort,
    alloc: Global,
    row: usize,
    loaded: FirstFile<'_>,
) -> Result<(), Fail> {
    let (words, name, text, wrong) = loaded;
    let line = format!(in alloc; "cohere: {name}: {wrong}\n")?;
    let bad = told(Status::BadInput, line.as_bytes());
    ends_over(rt, alloc, row, words, &[(name, text)], bad)
}

#[test]
fn first_files_of_the_forms(rt: HostRuntime) -> Result<(), Fail> {
    for (row, loaded) in FIRST_FILES.iter().enumerate() {
        is_named_where_missing(&rt, rt.alloc(), row, loaded.0, loaded.1)?;
        is_named_where_bad(&rt, rt.alloc(), row, *loaded)?;
    }
    Ok(())
}

// Of a run the relation, the script, and then the files of its products line by line: the first that
// is not there or bad is named, whatever those after it are.
const RUNS: [Told<'static>; 10] = [
    (
        &RUN,
        &[("S", b"shwo\n")],
        Status::StoreFailed,
        b"cohere: cannot read R\n",
    ),
    (
        &RUN,
        &[("R", GRAPHS), ("S", b"shwo\n")],
        Status::BadInput,
        b"cohere: R: PadBits at 2\n",
    ),
    (
        &RUN,
        &[("R", b"A_\n")],
        Status::StoreFailed,
        b"cohere: cannot read S\n",
    ),
    (
        &["run", "R", "-"],
        &[("R", b"A_\n"), ("S", b"show\n")],
        Status::StoreFailed,
        b"cohere: cannot read -\n",
    ),
    (
        &["run", "R", "-"],
        &[("R", b"A_\n"), ("-", b"show\nshwo\n")],
        Status::BadInput,
        b"cohere: -: line 2 UnknownWord\n",
    ),
    (
        &["run", "X", "X"],
        &[("X", b"@\n")],
        Status::BadInput,
        b"cohere: X: line 1 UnknownWord\n",
    ),
    (
        &RUN,
        &[("R", b"A_\n"), ("S", b"direct F\nshwo\n")],
        Status::BadInput,
        b"cohere: S: line 2 UnknownWord\n",
    ),
    (
        &RUN,
        &[
            ("R", b"A_\n"),
            ("S", b"show\nwreath G\ndirect F\n"),
            ("F", GRAPHS),
        ],
        Status::StoreFailed,
        b"cohere: cannot read G\n",
    ),
    (
        &RUN,
        &[
            ("R", b"A_\n"),
            ("S", b"show\nwreath G\ndirect F\n"),
            ("G", b"DQ\n"),
            ("F", GRAPHS),
        ],
        Status::BadInput,
        b"cohere: G: WrongLength at 2\n",
    ),
    (
        &RUN,
        &[
            ("R", b"A_\n"),
            ("S", b"direct G\nwreath G\ndirect F\ndirect M\n"),
            ("G", b"A_\n"),
            ("F", GRAPHS),
        ],
        Status::BadInput,
        b"cohere: F: PadBits at 2\n",
    ),
];

#[test]
fn first_bad_files_of_runs(rt: HostRuntime) -> Result<(), Fail> {
    all_tell(&rt, rt.alloc(), &RUNS)
}

const RAW_2: &[u8] = b"raw points 2 colours 2\n0 1\n1 0\n";

// Words with `-`, and relations that end before their file does.
const ANSWERS: [Answered<'static>; 11] = [
    (
        &["run", "-", "S"],
        &[("-", b"A_\n"), ("S", b"raw\n")],
        RAW_2,
    ),
    (
        &["run", "R", "-"],
        &[("R", b"A_\n"), ("-", b"raw\n")],
        RAW_2,
    ),
    (&["check", "-"], &[("-", TRACE)], YES),
    (
        &["ring", "-", "0", "1"],
        &[("-", b"matrix 2\n0 1\n1 0\n")],
        b"ring points 2 rank 2\n0 1\n",
    ),
    (&["cells", "-", "1"], &[("-", b"Bg\n")], CELLS),
    (&["check-cells", "-"], &[("-", CELLS)], CELLS_YES),
    (
        &["lattice", "-"],
        &[("-", b"@\n")],
        b"lattice fusions 1 covers 0\n0\nend\n",
    ),
    (
        &["lattice", "-", "0", "0"],
        &[("-", b"@\n")],
        b"common 0 0 0\n",
    ),
    (
        &["ring", "G", "0", "1"],
        &[("G", b"matrix 2\n0 1\n1 0\n0 x\n")],
        b"ring points 2 rank 2\n0 1\n",
    ),
    (
        &["cells", "R", "1"],
        &[("R", b">>graph6<<Bg\nDQd\n")],
        CELLS,
    ),
    (
        &["lattice", "R"],
        &[("R", b"@\nDQd\n")],
        b"lattice fusions 1 covers 0\n0\nend\n",
    ),
];

#[test]
fn files_that_are_named_by_a_dash(rt: HostRuntime) -> Result<(), Fail> {
    all_answer(&rt, rt.alloc(), &ANSWERS)
}

// One file at most is standard input, and no number is.
const WORDS: [&[&str]; 8] = [
    &["run", "-", "-"],
    &["run", "-", "-", "1"],
    &["run", "R", "S", "-"],
    &["ring", "-", "-"],
    &["cells", "-", "-"],
    &["lattice", "-", "-"],
    &["lattice", "-", "0", "-"],
    &["demo", "-"],
];

#[test]
fn dashes_that_fit_no_form(rt: HostRuntime) -> Result<(), Fail> {
    for (row, words) in WORDS.iter().enumerate() {
        fits_no_form(&rt, rt.alloc(), row, words)?;
    }
    Ok(())
}
