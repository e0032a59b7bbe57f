//! Coarsest equitable partitions: what `cells` answers, and each answer through `check-cells`.

use crate::judged_cells::{CELLS, CELLS_YES, CHECK_CELLS};
use crate::runs::{Answered, all_answer, store_of};
use crate::showing::{fits, written};
use crate::usage::fits_no_form;
use cohere_core::Status;
use std::alloc::{AllocError, Global};
use std::process::Abort;
use std::test::Fail;

/// The words that ask for the cells of the edges in R.
pub(crate) const CELLS_OF: [&str; 3] = ["cells", "R", "1"];

const BAD_SET: &[u8] = b"refused BadSet\n";

// Answers without a step, or with the one that there is. The path of three points, whose colours may
// be repeated and stand in any order, and whose diagonal pairs may be arcs.
const ANSWERS: [Answered<'static>; 6] = [
    (&CELLS_OF, &[("R", b"Bg\n")], CELLS),
    (&["cells", "R", "1", "1"], &[("R", b"Bg\n")], CELLS),
    (
        &["cells", "R", "2", "1"],
        &[("R", b"Bg\n")],
        b"cells 1\npoints 3\n0 1 1\n1 0 1\n1 1 0\ncells\n0 0 0\nend\n",
    ),
    (
        &["cells", "R", "0"],
        &[("R", b"Bg\n")],
        b"cells 1\npoints 3\n1 0 0\n0 1 0\n0 0 1\ncells\n0 0 0\nend\n",
    ),
    (
        &["cells", "R", "0", "1"],
        &[("R", b"Bg\n")],
        b"cells 1\npoints 3\n1 1 0\n1 1 1\n0 1 1\nS 0 0\ncells\n0 1 0\nend\n",
    ),
    (
        &CELLS_OF,
        &[("R", b"Dhc\n")],
        b"cells 1
points 5
0 1 0 0 1
1 0 1 0 0
0 1 0 1 0
0 0 1 0 1
1 0 0 1 0
cells
0 0 0 0 0
end
",
    ),
];

// A point; one colour on all pairs; an arc, whose end keeps the number of the cell; three points,
// each with one arc, two of them into the same point; and an order, which one step parts in three.
const MORE_ANSWERS: [Answered<'static>; 5] = [
    (
        &["cells", "R", "0"],
        &[("R", b"@\n")],
        b"cells 1\npoints 1\n1\ncells\n0\nend\n",
    ),
    (
        &["cells", "R", "7"],
        &[("R", b"matrix 2\n7 7\n7 7\n")],
        b"cells 1\npoints 2\n1 1\n1 1\ncells\n0 0\nend\n",
    ),
    (
        &CELLS_OF,
        &[("R", b"matrix 2\n0 1\n2 0\n")],
        b"cells 1\npoints 2\n0 1\n0 0\nS 0 0\ncells\n0 1\nend\n",
    ),
    (
        &CELLS_OF,
        &[("R", b"matrix 3\n0 1 2\n1 0 2\n1 2 0\n")],
        b"cells 1\npoints 3\n0 1 0\n1 0 0\n1 0 0\ncells\n0 0 0\nend\n",
    ),
    (
        &CELLS_OF,
        &[("R", b"matrix 3\n0 1 1\n2 0 1\n2 2 0\n")],
        b"cells 1\npoints 3\n0 1 1\n0 0 1\n0 0 0\nS 0 0\ncells\n0 1 2\nend\n",
    ),
];

// No pair has the colour, or one of the colours. Where all pairs have the colour 7, those of the
// closure are no colours of the relation.
const REFUSED_SETS: [Answered<'static>; 6] = [
    (&["cells", "R", "9"], &[("R", b"Bg\n")], BAD_SET),
    (&["cells", "R", "3"], &[("R", b"Bg\n")], BAD_SET),
    (&["cells", "R", "1", "9"], &[("R", b"Bg\n")], BAD_SET),
    (&["cells", "R", "9", "1"], &[("R", b"Bg\n")], BAD_SET),
    (&["cells", "R", "4294967295"], &[("R", b"Bg\n")], BAD_SET),
    (
        &["cells", "R", "0"],
        &[("R", b"matrix 2\n7 7\n7 7\n")],
        BAD_SET,
    ),
];

#[test]
fn cells_of_relations(rt: HostRuntime) -> Result<(), Fail> {
    all_answer(&rt, rt.alloc(), &ANSWERS)?;
    all_answer(&rt, rt.alloc(), &MORE_ANSWERS)?;
    all_answer(&rt, rt.alloc(), &REFUSED_SETS)
}

const WORDS: [&[&str]; 9] = [
    &["cells"],
    &["cells", "R"],
    &["cells", "R", "01"],
    &["cells", "R", "-1"],
    &["cells", "R", "4294967296"],
    &["cells", "R", "1", "x"],
    &["cells", "-", "-"],
    &["check-cells"],
    &["check-cells", "T", "1"],
];

#[test]
fn words_without_cells(rt: HostRuntime) -> Result<(), Fail> {
    for (row, words) in WORDS.iter().enumerate() {
        fits_no_form(&rt, rt.alloc(), row, words)?;
    }
    Ok(())
}

#[test]
fn relations_with_returns(rt: HostRuntime) -> Result<(), Fail> {
    let row: Answered<'_> = (&CELLS_OF, &[("R", b"Bg\r\n")], CELLS);
    all_answer(&rt, rt.alloc(), &[row])
}

// Words, the relation, how the answer begins and how it ends, and the line of its check: whole where
// it ends with a line end, and else a front, as the steps are free.
type Shown<'a> = (&'a [&'a str], &'a [u8], &'a [u8], &'a [u8], &'a [u8]);

// The check of the trace accepts it, and writes this line.
fn is_accepted(
    rt: &impl Abort,
    alloc: Global,
    row: usize,
    trace: &[u8],
    line: &[u8],
) -> Result<(), Fail> {
    let mut store = store_of(alloc, &[("T", trace)])?;
    let text = written(rt, alloc, &mut store, &CHECK_CELLS, Status::Done)?;
    assert_eq!(rt; fits(&text, line), true, "row {row}");
    Ok(())
}

// The answer has this front and this end.
fn has_ends(rt: &impl Abort, row: usize, answer: &[u8], front: &[u8], end: &[u8]) {
    assert_eq!(rt; answer.starts_with(front), true, "row {row}");
    assert_eq!(rt; answer.ends_with(end), true, "row {row}");
}

// The words are answered so, and the answer is checked so.
fn shows(rt: &impl Abort, alloc: Global, row: usize, shown: Shown<'_>) -> Result<(), Fail> {
    let (words, relation, front, end, line) = shown;
    let mut store = store_of(alloc, &[("R", relation)])?;
    let answer = written(rt, alloc, &mut store, words, Status::Done)?;
    has_ends(rt, row, &answer, front, end);
    is_accepted(rt, alloc, row, &answer, line)
}

// The path of three points and the 5-cycle; the Petersen graph; a path of five points; a tree; two
// triangles, each with one more edge; and a relation of three colours on six points.
const ROWS: [Shown<'static>; 7] = [
    (&CELLS_OF, b"Bg\n", CELLS, CELLS, CELLS_YES),
    (
        &CELLS_OF,
        b"Dhc\n",
        b"cells 1\npoints 5\n0 1 0 0 1\n",
        b"\ncells\n0 0 0 0 0\nend\n",
        b"accepted points 5 cells 1 steps 0\n",
    ),
    (
        &CELLS_OF,
        b"IheA@GUAo\n",
        b"cells 1\npoints 10\n",
        b"\ncells\n0 0 0 0 0 0 0 0 0 0\nend\n",
        b"accepted points 10 cells 1 steps 0\n",
    ),
    (
        &CELLS_OF,
        b"DhC\n",
        b"cells 1\npoints 5\n0 1 0 0 0\n1 0 1 0 0\n0 1 0 1 0\n0 0 1 0 1\n0 0 0 1 0\nS ",
        b"\ncells\n0 1 2 1 0\nend\n",
        b"accepted points 5 cells 3 steps ",
    ),
    (
        &CELLS_OF,
        b"GsP@?_\n",
        b"cells 1\npoints 8\n0 1 1 1 0 0 0 0\n1 0 0 0 1 1 0 0\n",
        b"\ncells\n0 1 2 2 3 3 4 4\nend\n",
        b"accepted points 8 cells 5 steps ",
    ),
    (
        &CELLS_OF,
        b"GwC[?_\n",
        b"cells 1\npoints 8\n0 1 1 0 0 0 1 0\n1 0 1 0 0 0 0 0\n",
        b"\ncells\n0 1 1 0 1 1 2 2\nend\n",
        b"accepted points 8 cells 3 steps ",
    ),
    (
        &["cells", "R", "3", "1"],
        b"matrix 6
0 2 2 1 3 2
1 0 2 1 2 3
2 3 0 1 2 1
2 3 2 0 2 3
2 1 2 3 0 2
2 1 1 2 2 0
",
        b"cells 1
points 6
0 0 0 1 1 0
1 0 0 1 0 1
0 1 0 1 0 1
0 1 0 0 0 1
0 1 0 1 0 0
0 1 1 0 0 0
",
        b"\ncells\n0 1 2 3 4 5\nend\n",
        b"accepted points 6 cells 6 steps ",
    ),
];

#[test]
fn cells_that_are_shown(rt: HostRuntime) -> Result<(), Fail> {
    for (row, shown) in ROWS.iter().enumerate() {
        shows(&rt, rt.alloc(), row, *shown)?;
    }
    Ok(())
}

// The colour of a pair of points in a row: 1 to the next, 2 to the later ones, 3 to the earlier ones.
fn colour_of(x: u32, y: u32) -> &'static [u8] {
    if y < x {
        b"3 "
    } else if y == x {
        b"0 "
    } else if y - x == 1 {
        b"1 "
    } else {
        b"2 "
    }
}

// 256 points in a row.
fn points_in_a_row(alloc: Global) -> Result<Vec<u8>, AllocError> {
    let mut text = Vec::from_slice(alloc, b"matrix 256\n")?;
    for x in 0..256u32 {
        for y in 0..256u32 {
            text.extend_from_slice(colour_of(x, y))?;
        }
        text.push(b'\n')?;
    }
    Ok(text)
}

const HEAD_256: &[u8] = b"cells 1\npoints 256\n";

const LAST_256: &[u8] = b" 252 253 254 255\nend\n";

// As many points as there may be: as many steps as they allow, where each parts one point from the
// others; as many parts of one step; and no step.
#[test]
fn cells_of_256_points(rt: HostRuntime) -> Result<(), Fail> {
    let text = points_in_a_row(rt.alloc())?;
    let rows: [Shown<'_>; 3] = [
        (
            &CELLS_OF,
            &text,
            HEAD_256,
            LAST_256,
            b"accepted points 256 cells 256 steps 255\n",
        ),
        (
            &["cells", "R", "1", "2"],
            &text,
            HEAD_256,
            LAST_256,
            b"accepted points 256 cells 256 steps 1\n",
        ),
        (
            &["cells", "R", "0", "1", "2", "3"],
            &text,
            HEAD_256,
            b" 0 0 0 0\nend\n",
            b"accepted points 256 cells 1 steps 0\n",
        ),
    ];
    for (row, shown) in rows.iter().enumerate() {
        shows(&rt, rt.alloc(), row, *shown)?;
    }
    Ok(())
}
