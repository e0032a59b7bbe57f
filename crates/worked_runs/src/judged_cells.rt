//! Claims of cells that are judged: each is accepted, or the line of its first bad line is written.

use crate::runs::{Ending, ends_over, wrote};
use crate::texts::{with_line, with_returns};
use cohere_core::Status;
use std::alloc::Global;
use std::process::Abort;
use std::test::Fail;

/// The words of a check of the file T.
pub(crate) const CHECK_CELLS: [&str; 2] = ["check-cells", "T"];

/// A path of three points, with a step that parts its middle from its ends.
pub(crate) const CELLS: &[u8] =
    b"cells 1\npoints 3\n0 1 0\n1 0 1\n0 1 0\nS 0 0\ncells\n0 1 0\nend\n";

/// What is written for it.
pub(crate) const CELLS_YES: &[u8] = b"accepted points 3 cells 2 steps 1\n";

/// The number of a line of this text, counted from 1, what stands in its place, and what is told.
pub(crate) type Change<'a> = (u32, &'a [u8], &'a [u8]);

/// The check of the text so changed ends so.
pub(crate) fn changed_ends(
    rt: &impl Abort,
    alloc: Global,
    row: usize,
    number: u32,
    line: &[u8],
    ending: Ending<'_>,
) -> Result<(), Fail> {
    let trace = with_line(alloc, CELLS, number, line)?;
    ends_over(rt, alloc, row, &CHECK_CELLS, &[("T", &trace)], ending)
}

// Traces of claims that are accepted: of one point; of an arc, whose end keeps the number; of a path
// of five points, parted in two ways; and of an order, parted at once.
const ACCEPTED: [(&[u8], &[u8]); 6] = [
    (CELLS, CELLS_YES),
    (
        b"cells 1\npoints 1\n0\ncells\n0\nend",
        b"accepted points 1 cells 1 steps 0\n",
    ),
    (
        b"cells 1\npoints 2\n0 1\n0 0\nS 0 0\ncells\n0 1\nend\n",
        b"accepted points 2 cells 2 steps 1\n",
    ),
    (
        b"cells 1\npoints 5\n0 1 0 0 0\n1 0 1 0 0\n0 1 0 1 0\n0 0 1 0 1\n0 0 0 1 0\nS 0 0\nS 1 0\ncells\n0 1 2 1 0\nend\n",
        b"accepted points 5 cells 3 steps 2\n",
    ),
    (
        b"cells 1\npoints 5\n0 1 0 0 0\n1 0 1 0 0\n0 1 0 1 0\n0 0 1 0 1\n0 0 0 1 0\nS 0 0\nS 1 1\ncells\n0 1 2 1 0\nend\n",
        b"accepted points 5 cells 3 steps 2\n",
    ),
    (
        b"cells 1\npoints 3\n0 1 1\n0 0 1\n0 0 0\nS 0 0\ncells\n0 1 2\nend\n",
        b"accepted points 3 cells 3 steps 1\n",
    ),
];

// And some that are not: the numbers of the last partition stand in place of those by first
// occurrence; and where that partition is not equitable, this is told first.
const REFUSED: [(&[u8], &[u8]); 2] = [
    (
        b"cells 1\npoints 2\n0 1\n0 0\nS 0 0\ncells\n1 0\nend\n",
        b"refused line 6 WrongCells\n",
    ),
    (
        b"cells 1\npoints 3\n0 1 0\n1 0 1\n0 1 0\ncells\n1 1 1\nend\n",
        b"refused line 6 NotEquitable\n",
    ),
];

// The check of each trace has the status, and writes its line.
fn all_are_judged(
    rt: &impl Abort,
    alloc: Global,
    status: Status,
    rows: &[(&[u8], &[u8])],
) -> Result<(), Fail> {
    for (row, (trace, output)) in rows.iter().enumerate() {
        let files = [("T", *trace)];
        ends_over(rt, alloc, row, &CHECK_CELLS, &files, wrote(status, output))?;
    }
    Ok(())
}

// Changes of the text whose claim is accepted still, and of one whose claim is not: of its step, of
// its claimed cells, and of its arcs.
const KEPT: [Change<'static>; 2] = [(0, b"", CELLS_YES), (9, b"end", CELLS_YES)];

const CHANGED: [Change<'static>; 20] = [
    (6, b"S 0 0\nS 0 0\n", b"refused line 7 IdleStep\n"),
    (6, b"", b"refused line 6 NotEquitable\n"),
    (6, b"S 5 0\n", b"refused line 6 NoSuchCell\n"),
    (8, b"0 0 0\n", b"refused line 7 WrongCells\n"),
    (6, b"S 1 0\n", b"refused line 6 NoSuchCell\n"),
    (6, b"S 0 1\n", b"refused line 6 NoSuchCell\n"),
    (6, b"S 255 255\n", b"refused line 6 NoSuchCell\n"),
    (6, b"S 0 0\nS 0 1\n", b"refused line 7 IdleStep\n"),
    (6, b"S 0 0\nS 1 0\n", b"refused line 7 IdleStep\n"),
    (6, b"S 0 0\nS 2 0\n", b"refused line 7 NoSuchCell\n"),
    (6, b"S 0 0\nS 0 2\n", b"refused line 7 NoSuchCell\n"),
    (6, b"S 0 0\nS 0 0\nS 9 9\n", b"refused line 7 IdleStep\n"),
    (6, b"S 9 9\nS 0 0\nS 0 0\n", b"refused line 6 NoSuchCell\n"),
    (8, b"1 0 1\n", b"refused line 7 WrongCells\n"),
    (8, b"0 1 1\n", b"refused line 7 WrongCells\n"),
    (8, b"0 1 2\n", b"refused line 7 WrongCells\n"),
    (8, b"0 255 0\n", b"refused line 7 WrongCells\n"),
    (3, b"1 1 0\n", b"refused line 7 NotEquitable\n"),
    (5, b"1 0 0\n", b"refused line 7 NotEquitable\n"),
    (5, b"0 0 0\n", b"refused line 7 WrongCells\n"),
];

// The check of each changed text has the status, and writes its line.
fn all_changed_are_judged(
    rt: &impl Abort,
    alloc: Global,
    status: Status,
    rows: &[Change<'_>],
) -> Result<(), Fail> {
    for (row, (number, line, output)) in rows.iter().enumerate() {
        changed_ends(rt, alloc, row, *number, line, wrote(status, output))?;
    }
    Ok(())
}

#[test]
fn claims_of_cells_that_are_accepted(rt: HostRuntime) -> Result<(), Fail> {
    all_are_judged(&rt, rt.alloc(), Status::Done, &ACCEPTED)?;
    all_changed_are_judged(&rt, rt.alloc(), Status::Done, &KEPT)
}

#[test]
fn claims_of_cells_that_are_refused(rt: HostRuntime) -> Result<(), Fail> {
    all_are_judged(&rt, rt.alloc(), Status::CheckedNo, &REFUSED)?;
    all_changed_are_judged(&rt, rt.alloc(), Status::CheckedNo, &CHANGED)
}

#[test]
fn a_claim_of_cells_with_returns(rt: HostRuntime) -> Result<(), Fail> {
    let trace = with_returns(rt.alloc(), CELLS)?;
    all_are_judged(&rt, rt.alloc(), Status::Done, &[(&trace, CELLS_YES)])
}
