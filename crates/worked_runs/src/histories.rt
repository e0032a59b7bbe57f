//! Scripts of edits.

use crate::runs::{Script, all_scripts_answer};
use std::test::Fail;

const HISTORIES: [Script<'static>; 3] = [
    (
        b"Dhc\n",
        b"fix 0\nshow\nundo\nredo\n",
        b"ok points 5 rank 13
show points 5 rank 13
0 3 4 4 3
5 1 6 7 8
9 10 2 11 12
9 12 11 2 10
5 8 7 6 1
ok points 5 rank 3
ok points 5 rank 13
",
    ),
    (
        b"Dhc\n",
        b"both 0 1 9\njoin 9 1\njoin 9 1\nredo\njoin 9 9\nset 0 1 8\n",
        b"ok points 5 rank 13
ok points 5 rank 3
refused ColourAbsent
refused NothingToRedo
ok points 5 rank 3
ok points 5 rank 25
",
    ),
    (
        b"matrix 5
0 1 2 3 4
5 6 7 8 9
10 11 12 13 14
15 16 17 18 19
20 21 22 23 24
",
        b"undo\nset 9 0 1\nset 0 0 1048576\nshow\n",
        b"refused NothingToUndo
refused PointRange
refused ColourRange
show points 5 rank 25
0 5 6 7 8
9 1 10 11 12
13 14 2 15 16
17 18 19 3 20
21 22 23 24 4
",
    ),
];

#[test]
fn scripts_of_edits(rt: HostRuntime) -> Result<(), Fail> {
    all_scripts_answer(&rt, rt.alloc(), &HISTORIES)
}
