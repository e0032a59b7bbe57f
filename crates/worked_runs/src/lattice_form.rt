//! Lattices of fusions: all of them with their covers, and the common refinement of two.

use crate::asking::{Question, all_questions_answer, all_questions_tell};
use crate::runs::File;
use crate::texts::{directed_cycle, plane_of_7};
use cohere_core::Status;
use std::test::Fail;

// The 3-cube; a directed 6-cycle, whose closure is the thin scheme of the cyclic group of order 6; a
// point; a path of three points, of whose two diagonal classes one fusion merges both; the 31-cycle,
// of rank 16; and 25 pairs that are all different.
const RELATIONS: [File<'static>; 6] = [
    ("R", b"Gr`HOk\n"),
    ("Six", b"&EOGCA@_\n"),
    ("One", b"@\n"),
    ("Path", b"Bg\n"),
    (
        "Wide",
        b"^hCGGC@?G?_@?@??_?G?@??C??G??G??C??@???G???_??@???@????_???G???@????C????K????G\n",
    ),
    (
        "Z",
        b"matrix 5\n0 1 2 3 4\n5 6 7 8 9\n10 11 12 13 14\n15 16 17 18 19\n20 21 22 23 24\n",
    ),
];

const LATTICES: [Question<'static>; 5] = [
    (
        "lattice R",
        b"lattice fusions 4 covers 4
0 1 1 1
0 1 1 2
0 1 2 1
0 1 2 3
1 0
2 0
3 1
3 2
end
",
    ),
    (
        "lattice Six",
        b"lattice fusions 7 covers 9
0 1 1 1 1 1
0 1 1 2 1 1
0 1 2 1 2 1
0 1 2 1 3 1
0 1 2 3 1 2
0 1 2 3 2 1
0 1 2 3 4 5
1 0
2 0
3 2
4 1
5 1
5 2
6 3
6 4
6 5
end
",
    ),
    ("lattice One", b"lattice fusions 1 covers 0\n0\nend\n"),
    (
        "lattice Path",
        b"lattice fusions 2 covers 1\n0 0 1 1 1\n0 1 2 3 4\n1 0\nend\n",
    ),
    (
        "lattice Wide",
        b"lattice fusions 4 covers 4
0 1 1 1 1 1 1 1 1 1 1 1 1 1 1 1
0 1 1 2 1 3 2 2 1 3 3 3 2 3 2 1
0 1 2 3 4 1 1 4 5 5 2 4 2 3 5 3
0 1 2 3 4 5 6 7 8 9 10 11 12 13 14 15
1 0
2 0
3 1
3 2
end
",
    ),
];

#[test]
fn lattices_of_fusions(rt: HostRuntime) -> Result<(), Fail> {
    all_questions_answer(&rt, rt.alloc(), &RELATIONS, &LATTICES)
}

// Of the fusions 3 and 1 and of the fusions 5 and 3 of the thin scheme the common refinement is no
// fusion, and is closed.
const COMMON: [Question<'static>; 9] = [
    ("lattice R 1 2", b"common 1 2 3\n"),
    ("lattice R 0 1", b"common 0 1 1\n"),
    ("lattice Six 3 1", b"common 3 1 6\n"),
    ("lattice Six 5 3", b"common 5 3 6\n"),
    ("lattice Six 1 2", b"common 1 2 5\n"),
    ("lattice Six 2 3", b"common 2 3 3\n"),
    ("lattice Six 4 4", b"common 4 4 4\n"),
    ("lattice One 0 0", b"common 0 0 0\n"),
    ("lattice Wide 1 2", b"common 1 2 3\n"),
];

#[test]
fn common_refinements(rt: HostRuntime) -> Result<(), Fail> {
    all_questions_answer(&rt, rt.alloc(), &RELATIONS, &COMMON)
}

// Places that no fusion has, and a closure with too many classes, which is tested first.
const REFUSED: [Question<'static>; 6] = [
    ("lattice R 0 4", b"refused PlaceRange\n"),
    ("lattice R 4 0", b"refused PlaceRange\n"),
    ("lattice One 0 1", b"refused PlaceRange\n"),
    ("lattice Six 0 4294967295", b"refused PlaceRange\n"),
    ("lattice Z", b"refused RankAbove\n"),
    ("lattice Z 0 4294967295", b"refused RankAbove\n"),
];

#[test]
fn lattices_that_are_refused(rt: HostRuntime) -> Result<(), Fail> {
    all_questions_answer(&rt, rt.alloc(), &RELATIONS, &REFUSED)
}

// The plane over seven elements, by directions, has rank 9 and 4,140 fusions: all that keep the
// diagonal apart. The thin scheme of the cyclic group of order 17 has one class more than may be.
const LARGE: [Question<'static>; 4] = [
    ("lattice Plane", b"refused TooManyFusions\n"),
    ("lattice Plane 0 5000", b"refused TooManyFusions\n"),
    ("lattice Cycle", b"refused RankAbove\n"),
    ("lattice Cycle 0 0", b"refused RankAbove\n"),
];

#[test]
fn lattices_that_are_too_large(rt: HostRuntime) -> Result<(), Fail> {
    let plane = plane_of_7(rt.alloc())?;
    let cycle = directed_cycle(rt.alloc(), b"matrix 17\n", 17)?;
    let files: [File<'_>; 2] = [("Plane", &plane), ("Cycle", &cycle)];
    all_questions_answer(&rt, rt.alloc(), &files, &LARGE)
}

// Relations that cannot be read, and one that is not there.
const BAD: [File<'static>; 3] = [
    ("Pad", b"DQd\n"),
    ("Size", b"~??D\n"),
    ("Few", b"matrix 2\n0 1\n1\n"),
];

const TOLD: [Question<'static>; 3] = [
    ("lattice Pad", b"cohere: Pad: PadBits at 2\n"),
    ("lattice Size 0 0", b"cohere: Size: SizeForm at 0\n"),
    ("lattice Few 9 9", b"cohere: Few: MatrixCount at 14\n"),
];

const MISSING: [Question<'static>; 2] = [
    ("lattice M", b"cohere: cannot read M\n"),
    ("lattice M 0 0", b"cohere: cannot read M\n"),
];

#[test]
fn lattices_of_no_relation(rt: HostRuntime) -> Result<(), Fail> {
    all_questions_tell(&rt, rt.alloc(), &BAD, Status::BadInput, &TOLD)?;
    all_questions_tell(&rt, rt.alloc(), &BAD, Status::StoreFailed, &MISSING)
}
