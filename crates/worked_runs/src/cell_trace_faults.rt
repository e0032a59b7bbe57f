//! Files that are no trace of cells.

use crate::judged_cells::{CELLS, CHECK_CELLS, Change, changed_ends};
use crate::runs::{Told, all_tell, ends_over, told};
use crate::texts::padded;
use cohere_core::Status;
use std::alloc::Global;
use std::process::Abort;
use std::test::Fail;

// Changes of the text: of its first two lines, and of its rows of arcs.
const HEADS: [Change<'static>; 21] = [
    (1, b"cells 2\n", b"cohere: T: line 1 Head\n"),
    (1, b"cells 01\n", b"cohere: T: line 1 Head\n"),
    (1, b"cells 1 \n", b"cohere: T: line 1 Head\n"),
    (1, b"cells\n", b"cohere: T: line 1 Head\n"),
    (1, b"trace 1\n", b"cohere: T: line 1 Head\n"),
    (1, b"\n", b"cohere: T: line 1 Head\n"),
    (1, b"", b"cohere: T: line 1 Head\n"),
    (2, b"points 0\n", b"cohere: T: line 2 Points\n"),
    (2, b"points 257\n", b"cohere: T: line 2 Points\n"),
    (2, b"points 03\n", b"cohere: T: line 2 Points\n"),
    (2, b"points  3\n", b"cohere: T: line 2 Points\n"),
    (2, b"points 3 3\n", b"cohere: T: line 2 Points\n"),
    (2, b"points 256\n", b"cohere: T: line 3 Row\n"),
    (2, b"points 2\n", b"cohere: T: line 3 Row\n"),
    (3, b"0 2 0\n", b"cohere: T: line 3 Row\n"),
    (3, b"0 1\n", b"cohere: T: line 3 Row\n"),
    (3, b"0 1 0 0\n", b"cohere: T: line 3 Row\n"),
    (4, b"1 0  1\n", b"cohere: T: line 4 Row\n"),
    (4, b"1 00 1\n", b"cohere: T: line 4 Row\n"),
    (5, b"0 1 0 \n", b"cohere: T: line 5 Row\n"),
    (5, b"", b"cohere: T: line 5 Row\n"),
];

// Of its step and the line after it, of its claimed cells, and of its end. The text is read whole
// before its claim is judged.
const BODIES: [Change<'static>; 25] = [
    (6, b"S 0\n", b"cohere: T: line 6 Body\n"),
    (6, b"S 0 0 0\n", b"cohere: T: line 6 Body\n"),
    (6, b"S 256 0\n", b"cohere: T: line 6 Body\n"),
    (6, b"S 0 256\n", b"cohere: T: line 6 Body\n"),
    (6, b"S 00 0\n", b"cohere: T: line 6 Body\n"),
    (6, b"S  0 0\n", b"cohere: T: line 6 Body\n"),
    (6, b"s 0 0\n", b"cohere: T: line 6 Body\n"),
    (6, b"R\n", b"cohere: T: line 6 Body\n"),
    (6, b"S 0 0\r\r\n", b"cohere: T: line 6 Body\n"),
    (6, b"0 1 0\n", b"cohere: T: line 6 Body\n"),
    (7, b"cells 1\n", b"cohere: T: line 7 Body\n"),
    (7, b"", b"cohere: T: line 7 Body\n"),
    (7, b"cells\ncells\n", b"cohere: T: line 8 Row\n"),
    (8, b"0 1\n", b"cohere: T: line 8 Row\n"),
    (8, b"0 1 0 0\n", b"cohere: T: line 8 Row\n"),
    (8, b"0 256 0\n", b"cohere: T: line 8 Row\n"),
    (8, b"0 01 0\n", b"cohere: T: line 8 Row\n"),
    (8, b"", b"cohere: T: line 8 Row\n"),
    (8, b"0 1 0\n0 1 0\n", b"cohere: T: line 9 End\n"),
    (9, b"end \n", b"cohere: T: line 9 End\n"),
    (9, b"", b"cohere: T: line 9 End\n"),
    (9, b"end\nend\n", b"cohere: T: line 10 Extra\n"),
    (9, b"end\n\n", b"cohere: T: line 10 Extra\n"),
    (9, b"end\n\r", b"cohere: T: line 10 Extra\n"),
    (6, b"S 9 9\nS 0 256\n", b"cohere: T: line 7 Body\n"),
];

// The changed text of each row is no trace of cells.
fn all_are_bad(rt: &impl Abort, alloc: Global, rows: &[Change<'_>]) -> Result<(), Fail> {
    for (row, (number, line, told_line)) in rows.iter().enumerate() {
        let bad = told(Status::BadInput, told_line);
        changed_ends(rt, alloc, row, *number, line, bad)?;
    }
    Ok(())
}

#[test]
fn files_that_are_no_trace_of_cells(rt: HostRuntime) -> Result<(), Fail> {
    all_are_bad(&rt, rt.alloc(), &HEADS)?;
    all_are_bad(&rt, rt.alloc(), &BODIES)
}

// Fronts of the text from one size up to another, and the line where they end too early.
const FRONTS: [(usize, usize, &[u8]); 9] = [
    (0, 7, b"cohere: T: line 1 Head\n"),
    (7, 16, b"cohere: T: line 2 Points\n"),
    (16, 22, b"cohere: T: line 3 Row\n"),
    (22, 28, b"cohere: T: line 4 Row\n"),
    (28, 34, b"cohere: T: line 5 Row\n"),
    (34, 40, b"cohere: T: line 6 Body\n"),
    (40, 46, b"cohere: T: line 7 Body\n"),
    (46, 52, b"cohere: T: line 8 Row\n"),
    (52, 56, b"cohere: T: line 9 End\n"),
];

// Each front of one of these sizes is bad at this line.
fn fronts_are_bad(
    rt: &impl Abort,
    alloc: Global,
    first: usize,
    past: usize,
    line: &[u8],
) -> Result<(), Fail> {
    for size in first..past {
        assert!(rt; size < CELLS.len());
        let files = [("T", &CELLS[..size])];
        let bad = told(Status::BadInput, line);
        ends_over(rt, alloc, size, &CHECK_CELLS, &files, bad)?;
    }
    Ok(())
}

// Every front but the one that lacks only the last line end.
#[test]
fn fronts_of_a_trace_of_cells(rt: HostRuntime) -> Result<(), Fail> {
    assert_eq!(rt; CELLS.len(), 57);
    for (first, past, line) in FRONTS {
        fronts_are_bad(&rt, rt.alloc(), first, past, line)?;
    }
    Ok(())
}

#[test]
fn a_trace_of_cells_that_is_not_there(rt: HostRuntime) -> Result<(), Fail> {
    let line = b"cohere: cannot read M\n";
    let row: Told<'_> = (
        &["check-cells", "M"],
        &[("T", CELLS)],
        Status::StoreFailed,
        line,
    );
    all_tell(&rt, rt.alloc(), &[row])
}

// A file of so many bytes that begins with the text is bad.
fn file_of(rt: &impl Abort, alloc: Global, size: usize, line: &[u8]) -> Result<(), Fail> {
    let file = padded(alloc, CELLS, size)?;
    let files = [("T", file.as_slice())];
    let bad = told(Status::BadInput, line);
    ends_over(rt, alloc, size, &CHECK_CELLS, &files, bad)
}

// As many bytes as there may be, and one more.
#[test]
fn limits_of_traces_of_cells(rt: HostRuntime) -> Result<(), Fail> {
    file_of(&rt, rt.alloc(), 1_048_576, b"cohere: T: line 10 Extra\n")?;
    file_of(&rt, rt.alloc(), 1_048_577, b"cohere: T: TooLong\n")
}
