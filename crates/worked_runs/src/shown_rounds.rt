//! Traces of version 2 that are shown. Their steps are not free: each text is whole.

use crate::showing::{Shown, all_show};
use std::test::Fail;

const ROWS: [Shown<'static>; 5] = [
    (
        b"Bg\n",
        b"trace 2\n",
        b"trace 2
points 3
stage
0 1 2
1 0 1
2 1 0
R
closure
0 2 3
4 1 4
3 2 0
end
",
        b"stage\naccepted points 3 rank 5 steps 1\n",
    ),
    (
        b"matrix 2\n7 7\n7 7\n",
        b"trace 2\n",
        b"trace 2
points 2
stage
7 7
7 7
R
closure
0 1
1 0
end
",
        b"stage\naccepted points 2 rank 2 steps 1\n",
    ),
    (
        b"matrix 2\n7 7\n7 7\n",
        b"adopt\ntrace 2\nundo\ntrace 2\n",
        b"ok points 2 rank 2
trace 2
points 2
stage
7 7
7 7
R
stage
0 1
1 0
closure
0 1
1 0
end
ok points 2 rank 2
trace 2
points 2
stage
7 7
7 7
R
closure
0 1
1 0
end
",
        b"stage
stage
accepted points 2 rank 2 steps 1
stage
accepted points 2 rank 2 steps 1
",
    ),
    (
        b"Dhc\n",
        b"trace 2\nfix 0\nundo\nredo\ntrace 2\n",
        b"trace 2
points 5
stage
0 1 2 2 1
1 0 1 2 2
2 1 0 1 2
2 2 1 0 1
1 2 2 1 0
closure
0 1 2 2 1
1 0 1 2 2
2 1 0 1 2
2 2 1 0 1
1 2 2 1 0
end
ok points 5 rank 13
ok points 5 rank 3
ok points 5 rank 13
trace 2
points 5
stage
0 1 2 2 1
1 0 1 2 2
2 1 0 1 2
2 2 1 0 1
1 2 2 1 0
stage
3 1 2 2 1
1 0 1 2 2
2 1 0 1 2
2 2 1 0 1
1 2 2 1 0
R
R
closure
0 3 4 4 3
5 1 6 7 8
9 10 2 11 12
9 12 11 2 10
5 8 7 6 1
end
",
        b"stage
accepted points 5 rank 3 steps 0
stage
stage
accepted points 5 rank 13 steps 2
",
    ),
    (
        b"Dhc\n",
        b"both 0 1 9\ntrace 2\njoin 9 1\ntrace 2\nset 0 1 8\ntrace 2\n",
        b"ok points 5 rank 13
trace 2
points 5
stage
0 1 2 2 1
1 0 1 2 2
2 1 0 1 2
2 2 1 0 1
1 2 2 1 0
stage
0 9 2 2 1
9 0 1 2 2
2 1 0 1 2
2 2 1 0 1
1 2 2 1 0
R
R
closure
0 3 4 5 6
3 0 6 5 4
7 8 1 9 10
11 11 12 2 12
8 7 10 9 1
end
ok points 5 rank 3
trace 2
points 5
stage
0 9 2 2 9
9 0 9 2 2
2 9 0 9 2
2 2 9 0 9
9 2 2 9 0
closure
0 1 2 2 1
1 0 1 2 2
2 1 0 1 2
2 2 1 0 1
1 2 2 1 0
end
ok points 5 rank 25
trace 2
points 5
stage
0 9 2 2 9
9 0 9 2 2
2 9 0 9 2
2 2 9 0 9
9 2 2 9 0
stage
0 8 2 2 9
9 0 9 2 2
2 9 0 9 2
2 2 9 0 9
9 2 2 9 0
R
R
closure
0 5 6 7 8
9 1 10 11 12
13 14 2 15 16
17 18 19 3 20
21 22 23 24 4
end
",
        b"stage
stage
accepted points 5 rank 13 steps 2
stage
accepted points 5 rank 3 steps 0
stage
stage
accepted points 5 rank 25 steps 2
",
    ),
];

#[test]
fn traces_of_rounds_that_are_shown(rt: HostRuntime) -> Result<(), Fail> {
    all_show(&rt, rt.alloc(), &ROWS)
}
