//! Parameters that an intersection array determines. No file is read: each array is asked about with
//! a store whose first call would fail.

use crate::asking::Question;
use crate::runs::{Ending, USAGE, done, ends_for_both, failing_store, told};
use crate::texts::cycle_parameters;
use cohere_core::Status;
use std::alloc::{AllocError, Global};
use std::process::Abort;
use std::test::Fail;

// The words end so over a store whose first call would fail.
fn ends_unread(
    rt: &impl Abort,
    alloc: Global,
    row: usize,
    words: &[&str],
    ending: Ending<'_>,
) -> Result<(), Fail> {
    let mut store = failing_store(alloc, &[], 0)?;
    ends_for_both(rt, alloc, row, words, &mut store, ending)
}

// Each array is answered.
fn all_arrays_answer(rt: &impl Abort, alloc: Global, rows: &[Question<'_>]) -> Result<(), Fail> {
    for (row, (array, output)) in rows.iter().enumerate() {
        let words: Vec<&str> = array.split_whitespace().collect(alloc)?;
        ends_unread(rt, alloc, row, &words, done(output))?;
    }
    Ok(())
}

// Arrays of the 5-cycle, the Petersen graph and the 3-cube; of a graph on 7 points that is not
// there, since 7 points cannot have 3 neighbours each; and of the graphs on 256 points in which all
// points are neighbours, or each point has all others but one.
const TABLES: [Question<'static>; 6] = [
    (
        "table 2 2 1 1 1",
        b"table points 5 rank 3 entries 13
0 0 0 1
1 1 0 2
2 2 0 2
0 1 1 1
1 0 1 1
1 2 1 1
2 1 1 1
2 2 1 1
0 2 2 1
1 1 2 1
1 2 2 1
2 0 2 1
2 1 2 1
",
    ),
    (
        "table 2 3 2 1 1",
        b"table points 10 rank 3 entries 14
0 0 0 1
1 1 0 3
2 2 0 6
0 1 1 1
1 0 1 1
1 2 1 2
2 1 1 2
2 2 1 4
0 2 2 1
1 1 2 1
1 2 2 2
2 0 2 1
2 1 2 2
2 2 2 3
",
    ),
    (
        "table 3 3 2 1 1 2 3",
        b"table points 8 rank 4 entries 20
0 0 0 1
1 1 0 3
2 2 0 3
3 3 0 1
0 1 1 1
1 0 1 1
1 2 1 2
2 1 1 2
2 3 1 1
3 2 1 1
0 2 2 1
1 1 2 2
1 3 2 1
2 0 2 1
2 2 2 2
3 1 2 1
0 3 3 1
1 2 3 3
2 1 3 3
3 0 3 1
",
    ),
    (
        "table 2 3 2 1 2",
        b"table points 7 rank 3 entries 14
0 0 0 1
1 1 0 3
2 2 0 3
0 1 1 1
1 0 1 1
1 2 1 2
2 1 1 2
2 2 1 1
0 2 2 1
1 1 2 2
1 2 2 1
2 0 2 1
2 1 2 1
2 2 2 1
",
    ),
    (
        "table 1 255 1",
        b"table points 256 rank 2 entries 5
0 0 0 1
1 1 0 255
0 1 1 1
1 0 1 1
1 1 1 254
",
    ),
    (
        "table 2 254 1 1 254",
        b"table points 256 rank 3 entries 11
0 0 0 1
1 1 0 254
2 2 0 1
0 1 1 1
1 0 1 1
1 1 1 252
1 2 1 1
2 1 1 1
0 2 2 1
1 1 2 254
2 0 2 1
",
    ),
];

#[test]
fn tables_of_arrays(rt: HostRuntime) -> Result<(), Fail> {
    all_arrays_answer(&rt, rt.alloc(), &TABLES)
}

// Arrays that are refused, each by the first test that fails, of its kind or of all; the array of
// 257 points is one past the limit.
const REFUSED: [Question<'static>; 17] = [
    ("table 1 3 2", b"refused FirstC\n"),
    ("table 2 2 2 3 1", b"refused FirstC\n"),
    ("table 2 2 2 1 1", b"refused Parts 1\n"),
    ("table 2 2 1 1 3", b"refused Parts 2\n"),
    ("table 2 2 2 1 3", b"refused Parts 1\n"),
    ("table 2 5 3 1 6", b"refused Parts 2\n"),
    ("table 2 5 3 1 4", b"refused Valency 2\n"),
    ("table 2 200 199 1 3", b"refused Valency 2\n"),
    ("table 2 200 199 1 1", b"refused TooManyPoints 2\n"),
    ("table 2 255 1 1 255", b"refused TooManyPoints 2\n"),
    ("table 3 200 199 1 1 1 7", b"refused TooManyPoints 2\n"),
    ("table 2 10 1 1 5", b"refused Negative 2 2 2\n"),
    ("table 3 3 2 1 1 2 1", b"refused Negative 3 3 3\n"),
    ("table 3 5 2 2 1 2 5", b"refused Negative 2 2 3\n"),
    ("table 3 8 1 4 1 2 1", b"refused Negative 2 2 2\n"),
    ("table 3 4 3 1 1 2 3", b"refused Division 2 2 1\n"),
    ("table 3 6 1 1 1 3 1", b"refused Division 2 2 1\n"),
];

#[test]
fn arrays_that_are_refused(rt: HostRuntime) -> Result<(), Fail> {
    all_arrays_answer(&rt, rt.alloc(), &REFUSED)
}

// The array of a cycle with an odd number of points, of this diameter: of its numbers all but the
// first are 1.
fn cycle_words(
    alloc: Global,
    diameter: &'static str,
    numbers: u32,
) -> Result<Vec<&'static str>, AllocError> {
    let mut words = Vec::new(alloc);
    words.push("table")?;
    words.push(diameter)?;
    words.push("2")?;
    for _ in 1..numbers {
        words.push("1")?;
    }
    Ok(words)
}

// The array of that cycle ends so.
fn cycle_ends(
    rt: &impl Abort,
    alloc: Global,
    diameter: &'static str,
    numbers: u32,
    ending: Ending<'_>,
) -> Result<(), Fail> {
    let words = cycle_words(alloc, diameter, numbers)?;
    ends_unread(rt, alloc, numbers as usize, &words, ending)
}

// The greatest diameter, that of the 65-cycle, and one more.
#[test]
fn limits_of_diameters(rt: HostRuntime) -> Result<(), Fail> {
    let front = b"table points 65 rank 33 entries 2113\n";
    let table = cycle_parameters(rt.alloc(), front, 32)?;
    cycle_ends(&rt, rt.alloc(), "32", 64, done(&table))?;
    cycle_ends(&rt, rt.alloc(), "33", 66, told(Status::Usage, USAGE))
}
