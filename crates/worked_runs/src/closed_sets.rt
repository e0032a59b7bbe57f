//! Scripts about closed subsets, and about quotients and subschemes by them.

use crate::runs::{Script, all_scripts_answer};
use crate::texts::directed_cycle;
use std::test::Fail;

// The last relation has all pairs of four points in different classes: its closed subsets are the
// equivalence relations on the points.
const ROWS: [Script<'static>; 5] = [
    (b"@\n", b"closed\n", b"closed\n0\nend\n"),
    (
        b"Gr`HOk\n",
        b"closed\nquotient 0 3\nquotient 0 1\nsub 0 0 2\nsub 8 0 2\n",
        b"closed
0
0 2
0 3
0 1 2 3
end
quotient points 4 rank 2
0 1 1 1
1 0 1 1
1 1 0 1
1 1 1 0
refused NotClosed
sub points 4 rank 2
0 1 1 1
1 0 1 1
1 1 0 1
1 1 1 0
refused PointRange
",
    ),
    (
        b"Bg\n",
        b"closed\n",
        b"closed
0 1
0 1 3
0 1 2 3 4
end
",
    ),
    (
        b"DQc\n",
        b"quotient 0\nsub 9 0\n",
        b"refused NotHomogeneous\nrefused NotHomogeneous\n",
    ),
    (
        b"matrix 4
0 1 2 3
4 5 6 7
8 9 10 11
12 13 14 15
",
        b"closed\n",
        b"closed
0 1 2 3
0 1 2 3 4 7
0 1 2 3 5 10
0 1 2 3 8 11
0 1 2 3 4 5 7 8 10 11
0 1 2 3 6 13
0 1 2 3 6 8 11 13
0 1 2 3 9 14
0 1 2 3 5 9 10 14
0 1 2 3 4 6 7 9 13 14
0 1 2 3 12 15
0 1 2 3 4 7 12 15
0 1 2 3 5 6 10 12 13 15
0 1 2 3 8 9 11 12 14 15
0 1 2 3 4 5 6 7 8 9 10 11 12 13 14 15
end
",
    ),
];

// Of a directed cycle each class of the closure is a step around it, so that the closed subsets are
// the subgroups of the cyclic group.
const STEPS_16: &[u8] = b"closed
0
0 8
0 4 8 12
0 2 4 6 8 10 12 14
0 1 2 3 4 5 6 7 8 9 10 11 12 13 14 15
end
";

#[test]
fn closed_subsets_and_what_they_divide(rt: HostRuntime) -> Result<(), Fail> {
    all_scripts_answer(&rt, rt.alloc(), &ROWS)
}

#[test]
fn closed_subsets_of_cyclic_groups(rt: HostRuntime) -> Result<(), Fail> {
    let alloc = rt.alloc();
    let within = directed_cycle(alloc, b"matrix 16\n", 16)?;
    let above = directed_cycle(alloc, b"matrix 17\n", 17)?;
    let rows: [Script<'_>; 2] = [
        (&within, b"closed\n", STEPS_16),
        (&above, b"closed\n", b"refused RankAbove\n"),
    ];
    all_scripts_answer(&rt, alloc, &rows)
}
