//! Traces of version 1 that are shown. A text is whole where it ends with a line end, and else a
//! front, as the steps are free.

use crate::showing::{Shown, all_show};
use crate::texts::repeated;
use std::test::Fail;

const ROWS: [Shown<'static>; 5] = [
    (
        b"matrix 2\n7 7\n7 7\n",
        b"raw\ntrace\n",
        b"raw points 2 colours 1
7 7
7 7
trace 1
points 2
stage
7 7
7 7
D 0
closure
0 1
1 0
end
",
        b"stage\naccepted points 2 rank 2 steps 1\n",
    ),
    (
        b"Dhc\n",
        b"fix 0\nshow\nundo\ntrace\n",
        b"ok points 5 rank 13
show points 5 rank 13
0 3 4 4 3
5 1 6 7 8
9 10 2 11 12
9 12 11 2 10
5 8 7 6 1
ok points 5 rank 3
trace 1
points 5
stage
0 1 2 2 1
1 0 1 2 2
2 1 0 1 2
2 2 1 0 1
1 2 2 1 0
closure
0 1 2 2 1
1 0 1 2 2
2 1 0 1 2
2 2 1 0 1
1 2 2 1 0
end
",
        b"stage\naccepted points 5 rank 3 steps 0\n",
    ),
    (
        b"matrix 2\n7 7\n7 7\n",
        b"adopt\ntrace\nundo\ntrace\n",
        b"ok points 2 rank 2
trace 1
points 2
stage
7 7
7 7
D 0
stage
0 1
1 0
closure
0 1
1 0
end
ok points 2 rank 2
trace 1
points 2
stage
7 7
7 7
D 0
closure
0 1
1 0
end
",
        b"stage
stage
accepted points 2 rank 2 steps 1
stage
accepted points 2 rank 2 steps 1
",
    ),
    (
        b"Dhc\n",
        b"fix 0\nundo\nredo\ntrace\n",
        b"ok points 5 rank 13
ok points 5 rank 3
ok points 5 rank 13
trace 1
points 5
stage
0 1 2 2 1
1 0 1 2 2
2 1 0 1 2
2 2 1 0 1
1 2 2 1 0
stage
3 1 2 2 1
1 0 1 2 2
2 1 0 1 2
2 2 1 0 1
1 2 2 1 0",
        b"stage\nstage\naccepted points 5 rank 13 steps ",
    ),
    (
        b"Dhc\n",
        b"both 0 1 9\njoin 9 1\ntrace\njoin 9 1\nredo\njoin 9 9\ntrace\nset 0 1 8\ntrace\n",
        b"ok points 5 rank 13
ok points 5 rank 3
trace 1
points 5
stage
0 9 2 2 9
9 0 9 2 2
2 9 0 9 2
2 2 9 0 9
9 2 2 9 0
closure",
        b"stage
accepted points 5 rank 3 steps 0
stage
stage
accepted points 5 rank 3 steps 0
stage
stage
stage
accepted points 5 rank 25 steps ",
    ),
];

#[test]
fn traces_that_are_shown(rt: HostRuntime) -> Result<(), Fail> {
    all_show(&rt, rt.alloc(), &ROWS)
}

// The last of the 257 is refused, and there are as many stages as entries.
#[test]
fn traces_of_a_full_history(rt: HostRuntime) -> Result<(), Fail> {
    let alloc = rt.alloc();
    let script = repeated(alloc, b"", b"adopt\n", 257, b"trace\ntrace 2\n")?;
    let last = b"accepted points 2 rank 2 steps 0\n";
    let checks = repeated(alloc, b"", b"stage\n", 257, last)?;
    let checks = repeated(alloc, b"", &checks, 2, b"")?;
    all_show(&rt, alloc, &[(b"A_\n", &script, b"ok", &checks)])
}
