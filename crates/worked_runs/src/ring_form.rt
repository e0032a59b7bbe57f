//! Schur rings that colours of elements generate.

use crate::asking::{Question, all_questions_answer, all_questions_tell};
use crate::runs::{Ending, File, done, ends_over, told};
use crate::texts::{cyclic_table, repeated};
use cohere_core::Status;
use std::alloc::{AllocError, Global};
use std::process::Abort;
use std::test::Fail;

// Tables of groups: one element, as a graph; two, as a graph with a line that is not judged, and on
// standard input; the cyclic groups of order 3, 4 and 6; the other group of order 4; and the
// symmetric group on three letters, whose elements 3, 4 and 5 are the transpositions.
const GROUPS: [File<'static>; 8] = [
    ("One", b"@\n"),
    ("Two", b"A_\nx\n"),
    ("-", b"matrix 2\n0 1\n1 0\n"),
    ("Three", b"matrix 3\n0 1 2\n1 2 0\n2 0 1\n"),
    ("G", b"matrix 4\n0 1 2 3\n1 2 3 0\n2 3 0 1\n3 0 1 2\n"),
    ("E", b"matrix 4\n0 1 2 3\n1 0 3 2\n2 3 0 1\n3 2 1 0\n"),
    (
        "Six",
        b"matrix 6
0 1 2 3 4 5
1 2 3 4 5 0
2 3 4 5 0 1
3 4 5 0 1 2
4 5 0 1 2 3
5 0 1 2 3 4
",
    ),
    (
        "S",
        b"matrix 6
0 1 2 3 4 5
1 2 0 4 5 3
2 0 1 5 3 4
3 5 4 0 2 1
4 3 5 1 0 2
5 4 3 2 1 0
",
    ),
];

const RINGS: [Question<'static>; 18] = [
    ("ring One 7", b"ring points 1 rank 1\n0\n"),
    ("ring Two 5 5", b"ring points 2 rank 2\n0 1\n"),
    ("ring - 1 0", b"ring points 2 rank 2\n0 1\n"),
    ("ring Three 1 0 0", b"ring points 3 rank 2\n0 1 1\n"),
    ("ring Three 4 4 9", b"ring points 3 rank 3\n0 1 2\n"),
    ("ring G 0 1 2 1", b"ring points 4 rank 3\n0 1 2 1\n"),
    ("ring G 5 5 5 5", b"ring points 4 rank 2\n0 1 1 1\n"),
    ("ring G 0 1 1 2", b"ring points 4 rank 4\n0 1 2 3\n"),
    ("ring E 0 1 1 2", b"ring points 4 rank 3\n0 1 1 2\n"),
    ("ring E 7 7 0 0", b"ring points 4 rank 3\n0 1 2 2\n"),
    (
        "ring Six 0 1 0 0 0 1",
        b"ring points 6 rank 4\n0 1 2 3 2 1\n",
    ),
    (
        "ring Six 0 0 1 1 0 1",
        b"ring points 6 rank 4\n0 1 2 3 1 2\n",
    ),
    (
        "ring Six 0 0 0 1 0 0",
        b"ring points 6 rank 3\n0 1 1 2 1 1\n",
    ),
    ("ring S 0 1 1 2 2 2", b"ring points 6 rank 3\n0 1 1 2 2 2\n"),
    ("ring S 0 0 0 1 1 0", b"ring points 6 rank 4\n0 1 1 2 2 3\n"),
    ("ring S 0 1 0 0 0 0", b"ring points 6 rank 4\n0 1 2 3 3 3\n"),
    ("ring S 0 1 0 1 0 0", b"ring points 6 rank 6\n0 1 2 3 4 5\n"),
    ("ring G 1048575 0 0 0", b"ring points 4 rank 2\n0 1 1 1\n"),
];

#[test]
fn rings_of_small_groups(rt: HostRuntime) -> Result<(), Fail> {
    all_questions_answer(&rt, rt.alloc(), &GROUPS, &RINGS)
}

// Lists of too few or too many colours, or with one that is too large: the count is tested first.
const REFUSED: [Question<'static>; 6] = [
    ("ring G 0 1 2", b"refused ColourCount\n"),
    ("ring G 0 1 2 2000000", b"refused ColourRange\n"),
    ("ring G 0 1 2000000", b"refused ColourCount\n"),
    ("ring G 0 1 2 3 2000000", b"refused ColourCount\n"),
    ("ring G 1048576 0 0 0", b"refused ColourRange\n"),
    ("ring One 4294967295", b"refused ColourRange\n"),
];

#[test]
fn lists_that_fit_no_group(rt: HostRuntime) -> Result<(), Fail> {
    all_questions_answer(&rt, rt.alloc(), &GROUPS, &REFUSED)
}

// Tables that are those of no group: a path; a number that is no element, in a graph and in a
// matrix; a unit that is not 0, and one of one side alone, either side; an element without an
// inverse; and a loop of five elements, each its own inverse, whose products are not associative.
const NO_GROUPS: [&[u8]; 8] = [
    b"Bg\n",
    b"A?\n",
    b"matrix 3\n0 1 2\n1 0 3\n2 3 0\n",
    b"matrix 2\n1 0\n0 1\n",
    b"matrix 3\n0 1 2\n2 0 1\n1 2 0\n",
    b"matrix 3\n0 2 1\n1 0 2\n2 1 0\n",
    b"matrix 2\n0 1\n1 1\n",
    b"matrix 5\n0 1 2 3 4\n1 0 3 4 2\n2 4 0 1 3\n3 2 4 0 1\n4 3 1 2 0\n",
];

// The table is tested first: one colour is too few, and here too large as well.
const ASKED: [&str; 3] = ["ring", "T", "1048576"];

#[test]
fn tables_that_are_no_group(rt: HostRuntime) -> Result<(), Fail> {
    for (row, table) in NO_GROUPS.iter().enumerate() {
        let refused = done(b"refused NotGroup\n");
        ends_over(&rt, rt.alloc(), row, &ASKED, &[("T", *table)], refused)?;
    }
    Ok(())
}

// Tables that cannot be read, by name.
const BAD: [File<'static>; 8] = [
    ("Empty", b""),
    ("Head", b"matrix 2 \n0 1\n1 0\n"),
    ("None", b"matrix 0\n"),
    ("Byte", b"matrix 2\n0 1\n1 x\n"),
    ("Few", b"matrix 2\n0 1\n1\n"),
    ("Many", b"matrix 2\n0 1 0\n1 0\n"),
    ("Zero", b"matrix 2\n0 1\n1 00\n"),
    ("Large", b"matrix 2\n0 1\n1 1048576\n"),
];

const TOLD: [Question<'static>; 8] = [
    ("ring Empty 0", b"cohere: Empty: NoLine at 0\n"),
    ("ring Head 0 1", b"cohere: Head: MatrixHead at 0\n"),
    ("ring None 0", b"cohere: None: NoPoints at 7\n"),
    ("ring Byte 0 1", b"cohere: Byte: BadByte at 15\n"),
    ("ring Few 0 1", b"cohere: Few: MatrixCount at 14\n"),
    ("ring Many 0 1", b"cohere: Many: MatrixCount at 13\n"),
    ("ring Zero 0 1", b"cohere: Zero: MatrixNumber at 15\n"),
    ("ring Large 0 1", b"cohere: Large: ColourTooLarge at 15\n"),
];

const MISSING: [Question<'static>; 1] = [("ring M 0", b"cohere: cannot read M\n")];

#[test]
fn tables_that_cannot_be_read(rt: HostRuntime) -> Result<(), Fail> {
    all_questions_tell(&rt, rt.alloc(), &BAD, Status::BadInput, &TOLD)?;
    all_questions_tell(&rt, rt.alloc(), &BAD, Status::StoreFailed, &MISSING)
}

// The colours 0 and 1 in turn, 256 of them.
fn by_parity(alloc: Global) -> Result<Vec<&'static str>, AllocError> {
    let mut words = Vec::new(alloc);
    words.push("ring")?;
    words.push("T")?;
    for _ in 0..128 {
        words.push("0")?;
        words.push("1")?;
    }
    Ok(words)
}

// These colours over the cyclic group of that order end so.
fn cyclic_ends(
    rt: &impl Abort,
    alloc: Global,
    head: &[u8],
    order: u32,
    ending: Ending<'_>,
) -> Result<(), Fail> {
    let table = cyclic_table(alloc, head, order)?;
    let words = by_parity(alloc)?;
    ends_over(rt, alloc, order as usize, &words, &[("T", &table)], ending)
}

// As many elements as there may be, and one more.
#[test]
fn limits_of_elements(rt: HostRuntime) -> Result<(), Fail> {
    let front = b"ring points 256 rank 3\n0";
    let ring = repeated(rt.alloc(), front, b" 1 2", 127, b" 1\n")?;
    cyclic_ends(&rt, rt.alloc(), b"matrix 256\n", 256, done(&ring))?;
    let line = b"cohere: T: TooManyPoints at 7\n";
    let told = told(Status::BadInput, line);
    cyclic_ends(&rt, rt.alloc(), b"matrix 257\n", 257, told)
}
