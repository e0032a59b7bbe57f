//! Questions about the closure.

use crate::runs::{Script, all_scripts_answer};
use std::test::Fail;

const QUERIES: [Script<'static>; 9] = [
    (
        b"DQc\n",
        b"classes\n",
        b"classes 13
class 0 size 2 valency 1 transpose 0 pair 0 0 fibres 0 0
class 1 size 2 valency 1 transpose 1 pair 1 1 fibres 1 1
class 2 size 1 valency 1 transpose 2 pair 4 4 fibres 2 2
class 3 size 2 valency 1 transpose 7 pair 0 1 fibres 0 1
class 4 size 2 valency 1 transpose 9 pair 0 2 fibres 0 1
class 5 size 2 valency 1 transpose 5 pair 0 3 fibres 0 0
class 6 size 2 valency 1 transpose 11 pair 0 4 fibres 0 2
class 7 size 2 valency 1 transpose 3 pair 1 0 fibres 1 0
class 8 size 2 valency 1 transpose 8 pair 1 2 fibres 1 1
class 9 size 2 valency 1 transpose 4 pair 1 3 fibres 1 0
class 10 size 2 valency 1 transpose 12 pair 1 4 fibres 1 2
class 11 size 2 valency 2 transpose 6 pair 4 0 fibres 2 0
class 12 size 2 valency 2 transpose 10 pair 4 1 fibres 2 1
",
    ),
    (
        b"Dhc\n",
        b"constants\n",
        b"constants 3 entries 13
0 0 0 1
1 1 0 2
2 2 0 2
0 1 1 1
1 0 1 1
1 2 1 1
2 1 1 1
2 2 1 1
0 2 2 1
1 1 2 1
1 2 2 1
2 0 2 1
2 1 2 1
",
    ),
    (
        b"Gr`HOk\n",
        b"tests\narray 1\narray 3\narray 0\n",
        b"tests homogeneous yes symmetric yes commutative yes thin no primitive no
array {3,2,1;1,2,3}
array disconnected 0 1
refused BadSet
",
    ),
    (
        b"&BP_\n",
        b"show\ntests\narray 1\n",
        b"show points 3 rank 3
0 1 2
2 0 1
1 2 0
tests homogeneous yes symmetric no commutative yes thin yes primitive yes
refused BadSet
",
    ),
    (
        b"DQc\n",
        b"array 4 9 6 11\ntests\n",
        b"array irregular 0 2 0 4
tests homogeneous no symmetric no commutative no thin no primitive no
",
    ),
    (
        b"IheA@GUAo\n",
        b"array 1\narray 2\ntests\n",
        b"array {3,2;1,1}
array {6,2;1,4}
tests homogeneous yes symmetric yes commutative yes thin no primitive yes
",
    ),
    (
        b"Bg\n",
        b"show\ntests\narray 2 4\n",
        b"show points 3 rank 5
0 2 3
4 1 4
3 2 0
tests homogeneous no symmetric no commutative no thin no primitive no
array irregular 0 1 1 0
",
    ),
    (
        b"Gr`HOk\n",
        b"write graph6 1\nwrite graph6 3\n",
        b"graph6 Gr`HOk\ngraph6 G?CaC?\n",
    ),
    (
        b"&BP_\n",
        b"write digraph6 1\nwrite graph6 1\n",
        b"digraph6 &BP_\nrefused BadSet\n",
    ),
];

#[test]
fn questions_about_the_closure(rt: HostRuntime) -> Result<(), Fail> {
    all_scripts_answer(&rt, rt.alloc(), &QUERIES)
}
