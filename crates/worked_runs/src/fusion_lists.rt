//! Scripts about fusions: closed strings, good subsets, and lists of fusions.

use crate::runs::{Script, all_scripts_answer};
use crate::texts::directed_cycle;
use std::test::Fail;

// Relations, with one script each: a point; the 3-cube, whose classes are its distances; a path of
// three points, of whose two diagonal classes one string merges both; a directed triangle; the
// 5-cycle; the Petersen graph; 25 pairs that are all different; and the 31-cycle, of rank 16.
const ROWS: [Script<'static>; 8] = [
    (
        b"@\n",
        b"close 0\nclose 0 0\nclose 1\ngood\nmergings 1\nmergings 1 after 0\n",
        b"close 0
refused NotGrowth
refused NotGrowth
good
0
end
mergings
0
end
mergings
end
",
    ),
    (
        b"Gr`HOk\n",
        b"close 0 1 2 2
close 0 1 1 1
close 0 2 1 1
good
mergings 10
mergings 2
mergings 2 after 0 1 1 2
mergings 3 after 0 1 2 0
mergings 1 after 0 2 1 1
",
        b"close 0 1 2 3
close 0 1 1 1
refused NotGrowth
good
0
1
2
1 2
3
1 3
1 2 3
end
mergings
0 1 1 1
0 1 1 2
0 1 2 1
0 1 2 3
end
mergings
0 1 1 1
0 1 1 2
next after 0 1 1 2
mergings
0 1 2 1
0 1 2 3
end
mergings
0 1 2 1
0 1 2 3
end
refused NotGrowth
",
    ),
    (
        b"Bg\n",
        b"close 0 0 1 1 1\nclose 0 0 1 1 2\ngood\nmergings 2\n",
        b"close 0 0 1 1 1
close 0 1 2 3 4
good
0
1
0 1
2
3
4
2 3 4
end
mergings
0 0 1 1 1
0 1 2 3 4
end
",
    ),
    (
        b"&BP_\n",
        b"mergings 1\nmergings 1 after 0 1 1\n",
        b"mergings\n0 1 1\nnext after 0 1 1\nmergings\n0 1 2\nend\n",
    ),
    (b"Dhc\n", b"mergings 10\n", b"mergings\n0 1 1\n0 1 2\nend\n"),
    (
        b"IheA@GUAo\n",
        b"good\nmergings 10\n",
        b"good\n0\n1\n2\n1 2\nend\nmergings\n0 1 1\n0 1 2\nend\n",
    ),
    (
        b"matrix 5\n0 1 2 3 4\n5 6 7 8 9\n10 11 12 13 14\n15 16 17 18 19\n20 21 22 23 24\n",
        b"good\nmergings 5\nmergings 5 after 0\n",
        b"refused RankAbove\nrefused RankAbove\nrefused RankAbove\n",
    ),
    (
        b"^hCGGC@?G?_@?@??_?G?@??C??G??G??C??@???G???_??@???@????_???G???@????C????K????G\n",
        b"good\nmergings 10\n",
        b"good
0
1
2
3
4
5
6
1 5 6
7
8
9
10
11
4 7 11
12
2 10 12
13
5 9 10 11 13
14
8 9 14
3 6 7 12 14
15
1 2 4 8 15
3 13 15
1 2 3 4 5 6 7 8 9 10 11 12 13 14 15
end
mergings
0 1 1 1 1 1 1 1 1 1 1 1 1 1 1 1
0 1 1 2 1 3 2 2 1 3 3 3 2 3 2 1
0 1 2 3 4 1 1 4 5 5 2 4 2 3 5 3
0 1 2 3 4 5 6 7 8 9 10 11 12 13 14 15
end
",
    ),
];

#[test]
fn scripts_about_fusions(rt: HostRuntime) -> Result<(), Fail> {
    all_scripts_answer(&rt, rt.alloc(), &ROWS)
}

// The thin scheme of the cyclic group of 13 elements has a fusion for each subgroup of its
// automorphisms.
const CYCLIC_13: &[u8] = b"mergings
0 1 1 1 1 1 1 1 1 1 1 1 1
0 1 2 1 1 2 2 2 2 1 1 2 1
0 1 2 1 3 2 2 4 4 1 3 4 3
0 1 2 2 3 1 3 3 1 3 2 2 1
0 1 2 3 4 5 6 6 5 4 3 2 1
0 1 2 3 4 5 6 7 8 9 10 11 12
end
mergings
0 1 2 1 3 2 2 4 4 1 3 4 3
0 1 2 2 3 1 3 3 1 3 2 2 1
next after 0 1 2 2 3 1 3 3 1 3 2 2 1
mergings
0 1 2 1 1 2 2 2 2 1 1 2 1
next after 0 1 2 1 1 2 2 2 2 1 1 2 1
";

#[test]
fn fusions_of_cyclic_groups(rt: HostRuntime) -> Result<(), Fail> {
    let alloc = rt.alloc();
    let within = directed_cycle(alloc, b"matrix 13\n", 13)?;
    let above = directed_cycle(alloc, b"matrix 17\n", 17)?;
    let rows: [Script<'_>; 2] = [
        (
            &within,
            b"mergings 10
mergings 2 after 0 1 2 1 1 2 2 2 2 1 1 2 1
mergings 1 after 0 1 1 1 1 1 1 1 1 1 1 1 2
",
            CYCLIC_13,
        ),
        (
            &above,
            b"good\nmergings 1 after 0\n",
            b"refused RankAbove\nrefused RankAbove\n",
        ),
    ];
    all_scripts_answer(&rt, alloc, &rows)
}
