//! Tasks of each form whose reads and writes fail in turn.

use crate::cells_form::CELLS_OF;
use crate::judged_cells::{CELLS, CELLS_YES, CHECK_CELLS};
use crate::judged_traces::{TRACE, YES};
use crate::runs::{CHECK, File, RUN};
use cohere_core::Status;
use std::alloc::{AllocError, Global};

/// Words, the files in the order in which they are loaded, and, where nothing fails, the status and
/// the answers. An answer is handed to the output in one piece.
pub(crate) type Task<'a> = (&'a [&'a str], &'a [File<'a>], Status, &'a [&'a [u8]]);

/// The graph6 text of the 3-cube.
pub(crate) const CUBE: &[u8] = b"Gr`HOk\n";

/// The answer to `show` over it.
pub(crate) const SHOWN: &[u8] = b"show points 8 rank 4
0 1 1 2 1 2 2 3
1 0 2 1 2 1 3 2
1 2 0 1 2 3 1 2
2 1 1 0 3 2 2 1
1 2 2 3 0 1 1 2
2 1 3 2 1 0 2 1
2 3 1 2 1 2 0 1
3 2 2 1 2 1 1 0
";

/// A run of four answers.
pub(crate) const ANSWERS: Task<'static> = (
    &RUN,
    &[("R", CUBE), ("S", b"show\narray 1\ntests\nmergings 100\n")],
    Status::Done,
    &[
        SHOWN,
        b"array {3,2,1;1,2,3}\n",
        b"tests homogeneous yes symmetric yes commutative yes thin no primitive no\n",
        b"mergings\n0 1 1 1\n0 1 1 2\n0 1 2 1\n0 1 2 3\nend\n",
    ],
);

/// A run that takes its relation from a later line, and loads a file for each product.
pub(crate) const PRODUCTS: Task<'static> = (
    &["run", "R", "S", "2"],
    &[
        ("R", b"DQc\nA_\n"),
        ("S", b"direct F\nwreath G\nwreath F\n"),
        ("F", b"A_\n"),
        ("G", b"@\n"),
        ("F", b"A_\n"),
    ],
    Status::Done,
    &[
        b"ok points 4 rank 4\n",
        b"ok points 4 rank 4\n",
        b"ok points 8 rank 5\n",
    ],
);

/// A check of a claim that is accepted.
pub(crate) const ACCEPTED: Task<'static> = (&CHECK, &[("T", TRACE)], Status::Done, &[YES]);

/// A check of a claim that is not.
pub(crate) const REFUSED: Task<'static> = (
    &CHECK,
    &[(
        "T",
        b"trace 1\npoints 2\nstage\n7 7\n7 7\nclosure\n0 1\n1 0\nend\n",
    )],
    Status::CheckedNo,
    &[b"refused line 6 NotCoherent\n"],
);

/// The demonstration of 7, which reads nothing.
pub(crate) const SEVEN: Task<'static> = (
    &["demo", "7"],
    &[],
    Status::Done,
    &[
        b"demo 7 points 23\n",
        b"tests homogeneous yes symmetric no commutative yes thin yes primitive yes\n",
        b"ok points 23 rank 529\n",
        b"ok points 23 rank 23\n",
        b"ok points 23 rank 23\n",
        b"tests homogeneous yes symmetric no commutative yes thin yes primitive yes\n",
        b"ok points 23 rank 529\n",
        b"ok points 23 rank 529\n",
        b"check accepted points 23 rank 529 stages 3\n",
    ],
);

// The Schur ring of a colouring of the cyclic group of four elements.
const RING: Task<'static> = (
    &["ring", "G", "0", "1", "2", "1"],
    &[("G", b"matrix 4\n0 1 2 3\n1 2 3 0\n2 3 0 1\n3 0 1 2\n")],
    Status::Done,
    &[b"ring points 4 rank 3\n0 1 2 1\n"],
);

// The cells of a path of three points.
const CELLS_ANSWER: Task<'static> = (&CELLS_OF, &[("R", b"Bg\n")], Status::Done, &[CELLS]);

// A question about cells that is refused.
const BAD_SET: Task<'static> = (
    &["cells", "R", "9"],
    &[("R", b"Bg\n")],
    Status::Done,
    &[b"refused BadSet\n"],
);

// A check of a claim of cells that is accepted.
const CELLS_ACCEPTED: Task<'static> = (&CHECK_CELLS, &[("T", CELLS)], Status::Done, &[CELLS_YES]);

// A check of a claim of cells that is not.
const CELLS_REFUSED: Task<'static> = (
    &CHECK_CELLS,
    &[(
        "T",
        b"cells 1\npoints 3\n0 1 0\n1 0 1\n0 1 0\ncells\n0 1 0\nend\n",
    )],
    Status::CheckedNo,
    &[b"refused line 6 NotEquitable\n"],
);

// The lattice of the fusions of the 3-cube.
const LATTICE: Task<'static> = (
    &["lattice", "R"],
    &[("R", CUBE)],
    Status::Done,
    &[
        b"lattice fusions 4 covers 4
0 1 1 1
0 1 1 2
0 1 2 1
0 1 2 3
1 0
2 0
3 1
3 2
end
",
    ],
);

// What two of these fusions have in common.
const COMMON: Task<'static> = (
    &["lattice", "R", "1", "2"],
    &[("R", CUBE)],
    Status::Done,
    &[b"common 1 2 3\n"],
);

/// Questions about a relation.
pub(crate) const QUESTIONS: [Task<'static>; 5] = [RING, CELLS_ANSWER, BAD_SET, LATTICE, COMMON];

/// Checks of claims of cells.
pub(crate) const CELL_CHECKS: [Task<'static>; 2] = [CELLS_ACCEPTED, CELLS_REFUSED];

/// The table of the array of the 5-cycle, which reads nothing.
pub(crate) const TABLE: Task<'static> = (
    &["table", "2", "2", "1", "1", "1"],
    &[],
    Status::Done,
    &[
        b"table points 5 rank 3 entries 13
0 0 0 1
1 1 0 2
2 2 0 2
0 1 1 1
1 0 1 1
1 2 1 1
2 1 1 1
2 2 1 1
0 2 2 1
1 1 2 1
1 2 2 1
2 0 2 1
2 1 2 1
",
    ],
);

/// The answers, one after the other.
pub(crate) fn joined(alloc: Global, pieces: &[&[u8]]) -> Result<Vec<u8>, AllocError> {
    let mut text = Vec::new(alloc);
    for piece in pieces {
        text.extend_from_slice(piece)?;
    }
    Ok(text)
}
