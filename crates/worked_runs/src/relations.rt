//! Relations of each form, with one script each, and files that are no relation.

use crate::runs::{File, Script, all_answer, all_scripts_answer, all_scripts_are_bad};
use std::test::Fail;

const PATH: &[u8] = b"show points 5 rank 13
0 3 4 5 6
7 1 8 9 10
9 8 1 7 10
5 4 3 0 6
11 12 12 11 2
";

const CYCLE: &[u8] = b"show points 5 rank 3
0 1 2 2 1
1 0 1 2 2
2 1 0 1 2
2 2 1 0 1
1 2 2 1 0
";

// McKay's digraph of the path stands without and with its header.
const RELATIONS: [Script<'static>; 9] = [
    (b"DQc\n", b"show\n", PATH),
    (
        b"@\n",
        b"show\ntests\n",
        b"show points 1 rank 1
0
tests homogeneous yes symmetric yes commutative yes thin yes primitive no
",
    ),
    (b"Dhc\n", b"show\n", CYCLE),
    (b"&DI?AO?\n", b"show\n", PATH),
    (b">>digraph6<<&DI?AO?\r\n", b"show\r\n", PATH),
    (b"DQc", b"show", PATH),
    (b"A_\n", b"", b""),
    (b"A_\n", b"# show\n \t\n", b""),
    (
        b"matrix 2\n7 7\n7 7\n",
        b"raw\n",
        b"raw points 2 colours 1
7 7
7 7
",
    ),
];

#[test]
fn relations_of_each_form(rt: HostRuntime) -> Result<(), Fail> {
    all_scripts_answer(&rt, rt.alloc(), &RELATIONS)
}

// The relation of the second line.
#[test]
fn a_relation_of_a_later_line(rt: HostRuntime) -> Result<(), Fail> {
    let files: [File<'_>; 2] = [("R", b"DQc\nDhc\nD Q\n"), ("S", b"show")];
    all_answer(&rt, rt.alloc(), &[(&["run", "R", "S", "2"], &files, CYCLE)])
}

// Files that are no relation on their first line. Of two bad files the relation is read first.
const NO_RELATIONS: [Script<'static>; 16] = [
    (b"", b"show\n", b"cohere: R: NoLine at 0\n"),
    (b":An\n", b"show\n", b"cohere: R: BadByte at 0\n"),
    (b"~??D\n", b"show\n", b"cohere: R: SizeForm at 0\n"),
    (b"?\n", b"show\n", b"cohere: R: NoPoints at 0\n"),
    (b"~?C@\n", b"show\n", b"cohere: R: TooManyPoints at 0\n"),
    (b"~?AB\n", b"show\n", b"cohere: R: WrongLength at 4\n"),
    (b"DQ\n", b"show\n", b"cohere: R: WrongLength at 2\n"),
    (b"DQc?\n", b"show\n", b"cohere: R: WrongLength at 4\n"),
    (b"DQd\n", b"show\n", b"cohere: R: PadBits at 2\n"),
    (b"matrix x\n", b"show\n", b"cohere: R: MatrixHead at 0\n"),
    (b"matrix 0\n", b"show\n", b"cohere: R: NoPoints at 7\n"),
    (b"matrix 1\nx\n", b"show\n", b"cohere: R: BadByte at 9\n"),
    (
        b"matrix 1\n07\n",
        b"show\n",
        b"cohere: R: MatrixNumber at 9\n",
    ),
    (
        b"matrix 2\n0 1\n1\n",
        b"show\n",
        b"cohere: R: MatrixCount at 14\n",
    ),
    (
        b"matrix 1\n99999999999\n",
        b"show\n",
        b"cohere: R: ColourTooLarge at 9\n",
    ),
    (b"DQd\n", b"shwo\n", b"cohere: R: PadBits at 2\n"),
];

#[test]
fn files_that_are_no_relation(rt: HostRuntime) -> Result<(), Fail> {
    all_scripts_are_bad(&rt, rt.alloc(), &NO_RELATIONS)
}
