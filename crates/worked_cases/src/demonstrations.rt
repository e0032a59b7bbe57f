//! The relations of the demonstration.

use pair_colours::Colouring;
use scheme_demo::demo_relation;
use std::process::Abort;
use std::test::Fail;

// The colours of (0, 0), (0, 1) and so on: for 7 as the format has them, for 0 and the greatest
// number worked out apart from the program.
const FIRST_ROWS: [(u32, &[u32]); 3] = [
    (0, &[0, 2, 2, 1, 1, 1, 2, 2, 1, 2, 2, 1, 1, 1, 2, 2]),
    (
        7,
        &[
            0, 3, 1, 2, 1, 3, 1, 1, 3, 1, 1, 3, 1, 2, 1, 3, 1, 3, 2, 3, 3, 2, 3,
        ],
    ),
    (
        4_294_967_295,
        &[
            0, 2, 2, 1, 2, 2, 1, 2, 2, 1, 2, 2, 1, 2, 2, 1, 2, 2, 1, 2, 2, 1, 2, 2, 1, 2, 2, 1, 2,
            2, 1, 2, 2, 1, 2, 2, 1, 2, 2, 1, 2, 2, 1, 2, 2, 1, 2, 2, 1, 2, 2, 1, 2, 2,
        ],
    ),
];

// Each row of the relation is the first row, turned.
fn is_turned(rt: &impl Abort, relation: &Colouring, row: &[u32]) {
    let size = relation.size();
    assert_eq!(rt; size as usize, row.len());
    for x in 0..size {
        for y in 0..size {
            let distance = if x <= y { y - x } else { y + size - x };
            assert_eq!(rt; relation.get(x, y), row[distance as usize], "{x} {y}");
        }
    }
}

#[test]
fn relations_turn(rt: HostRuntime) -> Result<(), Fail> {
    for (number, row) in &FIRST_ROWS {
        is_turned(&rt, &demo_relation(rt.alloc(), *number)?, row);
    }
    Ok(())
}
