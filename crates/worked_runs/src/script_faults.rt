//! Files that are no script; blank lines count.

use crate::runs::{Script, all_scripts_are_bad};
use std::test::Fail;

const SCRIPTS: [Script<'static>; 9] = [
    (b"A_\n", b"show\x01\n", b"cohere: S: line 1 BadByte\n"),
    (b"A_\n", b"shwo\n", b"cohere: S: line 1 UnknownWord\n"),
    (b"A_\n", b"show\nfix\n", b"cohere: S: line 2 WrongCount\n"),
    (b"A_\n", b"fix 01\n", b"cohere: S: line 1 BadNumber\n"),
    (
        b"A_\n",
        b"show\nmergings 0\n",
        b"cohere: S: line 2 BadLimit\n",
    ),
    (b"A_\n", b"direct -\n", b"cohere: S: line 1 BadName\n"),
    (b"A_\n", b"trace 1\n", b"cohere: S: line 1 UnknownWord\n"),
    (
        b"A_\n",
        b"show\ntrace 2 2\n",
        b"cohere: S: line 2 WrongCount\n",
    ),
    (
        b"A_\n",
        b"show\n\nfuse 0 x\n",
        b"cohere: S: line 3 BadNumber\n",
    ),
];

#[test]
fn files_that_are_no_script(rt: HostRuntime) -> Result<(), Fail> {
    all_scripts_are_bad(&rt, rt.alloc(), &SCRIPTS)
}
