//! What the cases share: matrices, what is read of them, and assertions.

ghost use Rattle.std.specs.Prelude.{◌≤◌, All, IfOk};
ghost use Rattle.pair_colours.specs.declared.coloured_pairs.TheConstants.{MOST_COLOUR};

use pair_colours::Colouring;
use relation_text::{MOST_RELATION, RelationFault, read_relation};
use std::process::Abort;

/// The 3-cube by distance; its points are the numbers below 8, and an edge changes one bit.
pub(crate) const CUBE: &[u8] =
    b"matrix 8\n0 1 1 2 1 2 2 3\n1 0 2 1 2 1 3 2\n1 2 0 1 2 3 1 2\n2 1 1 0 3 2 2 1\n\
    1 2 2 3 0 1 1 2\n2 1 3 2 1 0 2 1\n2 3 1 2 1 2 0 1\n3 2 2 1 2 1 1 0\n";

/// The directed 3-cycle, which is the group of three elements.
pub(crate) const CYCLE: &[u8] = b"matrix 3\n0 1 2\n2 0 1\n1 2 0\n";

/// The cycle on five points by distance.
pub(crate) const PENTAGON: &[u8] =
    b"matrix 5\n0 1 2 2 1\n1 0 1 2 2\n2 1 0 1 2\n2 2 1 0 1\n1 2 2 1 0\n";

/// The path 2, 0, 4, 3, 1: 0 stands on the diagonal, 1 on an edge and 2 elsewhere. It is McKay's
/// example of a graph.
pub(crate) const PATH: &[u8] = b"matrix 5\n0 2 1 2 1\n2 0 2 1 2\n1 2 0 2 2\n2 1 2 0 1\n1 2 2 1 0\n";

/// What is read at a line of a text.
pub(crate) fn read(
    rt: &(impl Abort + AllocGlobal),
    text: &[u8],
    line: u32,
) -> Result<Colouring, RelationFault>
    ensures raw { IfOk result (λ c. All (λ colour. colour ≤ MOST_COLOUR) c.colours) }
{
    assert!(rt; line >= 1 && text.len() <= MOST_RELATION as usize);
    read_relation(rt.alloc(), text, line)
}

/// The bytes are the wanted ones.
pub(crate) fn same_bytes(rt: &impl Abort, found: &[u8], wanted: &[u8]) {
    assert_eq!(rt; found, wanted);
}

/// The numbers are the wanted ones.
pub(crate) fn same_numbers(rt: &impl Abort, found: &[u32], wanted: &[u32]) {
    assert_eq!(rt; found, wanted);
}

/// The pairs from point 0 have these colours.
pub(crate) fn has_first_row(rt: &impl Abort, colouring: &Colouring, row: &[u32]) {
    let size = colouring.size();
    assert_eq!(rt; size as usize, row.len());
    for y in 0..size {
        assert_eq!(rt; colouring.get(0, y), row[y as usize]);
    }
}
