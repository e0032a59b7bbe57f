//! The texts of answers, over configurations whose data can be worked out by hand.

use crate::configurations::{ONE_POINT, TWO_FIBRES, configuration};
use crate::fixtures::{CUBE, CYCLE, read, same_bytes};
use closed_subsets::closed;
use drg_arrays::{ArrayFault, array};
use mergings::mergings;
use pair_colours::NoMemory;
use report_text::{
    GraphNote, MatrixHead, SetHead, array_text, classes_text, close_text, constants_text,
    edit_text, graph_text, matrix_text, mergings_text, refused_text, sets_text, tests_text,
};
use scheme_tests::tests;
use std::alloc::Global;
use std::process::Abort;
use std::test::Fail;
use struct_consts::Constants;
use visitors::{Keep, Visitor};

// A text that was made is the wanted one.
fn same(rt: &impl Abort, made: Result<Vec<u8>, NoMemory>, wanted: &[u8]) -> Result<(), Fail> {
    let made = made?;
    same_bytes(rt, &made, wanted);
    Ok(())
}

// The symmetric group on three letters, with the turns 1 and 2 and the swaps 3 to 5.
const SYMMETRIC: &[u8] =
    b"matrix 6\n0 1 2 3 4 5\n2 0 1 4 5 3\n1 2 0 5 3 4\n3 4 5 0 1 2\n4 5 3 2 0 1\n5 3 4 1 2 0\n";

// The closure of the path 0, 1, 2.
const PATH_OF_THREE: &[u8] = b"matrix 3\n0 2 3\n4 1 4\n3 2 0\n";

// The Petersen graph, with the pentagon 0 to 4, a spoke from each of its points x to x + 5, and the
// pentagram 5, 7, 9, 6, 8.
const PETERSEN: &[u8] =
    b"matrix 10\n0 1 2 2 1 1 2 2 2 2\n1 0 1 2 2 2 1 2 2 2\n2 1 0 1 2 2 2 1 2 2\n\
    2 2 1 0 1 2 2 2 1 2\n1 2 2 1 0 2 2 2 2 1\n1 2 2 2 2 0 2 1 1 2\n2 1 2 2 2 2 0 2 1 1\n\
    2 2 1 2 2 1 2 0 2 1\n2 2 2 1 2 1 1 2 0 2\n2 2 2 2 1 2 1 1 2 0\n";

// The closure of McKay's example, a path on five points.
const PATH_OF_FIVE: &[u8] =
    b"matrix 5\n0 3 4 5 6\n7 1 8 9 10\n9 8 1 7 10\n5 4 3 0 6\n11 12 12 11 2\n";

// Configurations, and the answer on their five tests. In TWO_FIBRES all valencies are 1, and yet it is
// not thin. In the cube the antipodal pairs are a closed subset, and so are the even distances.
const TESTS: [(&[u8], &[u8]); 8] = [
    (
        ONE_POINT,
        b"tests homogeneous yes symmetric yes commutative yes thin yes primitive no\n",
    ),
    (
        CYCLE,
        b"tests homogeneous yes symmetric no commutative yes thin yes primitive yes\n",
    ),
    (
        TWO_FIBRES,
        b"tests homogeneous no symmetric no commutative no thin no primitive no\n",
    ),
    (
        SYMMETRIC,
        b"tests homogeneous yes symmetric no commutative no thin yes primitive no\n",
    ),
    (
        PATH_OF_THREE,
        b"tests homogeneous no symmetric no commutative no thin no primitive no\n",
    ),
    (
        CUBE,
        b"tests homogeneous yes symmetric yes commutative yes thin no primitive no\n",
    ),
    (
        PETERSEN,
        b"tests homogeneous yes symmetric yes commutative yes thin no primitive yes\n",
    ),
    (
        PATH_OF_FIVE,
        b"tests homogeneous no symmetric no commutative no thin no primitive no\n",
    ),
];

#[test]
fn five_tests(rt: HostRuntime) -> Result<(), Fail> {
    for (matrix, line) in &TESTS {
        let k = configuration(&rt, matrix)?;
        same(&rt, tests_text(rt.alloc(), &tests(rt.alloc(), &k)?), line)?;
    }
    Ok(())
}

// Configurations, sets of their classes, and the answer on the graph of the set.
const ARRAYS: [(&[u8], &[u32], &[u8]); 14] = [
    (ONE_POINT, &[0], b"refused BadSet\n"),
    (CYCLE, &[1], b"refused BadSet\n"),
    (CYCLE, &[1, 2], b"array {2;1}\n"),
    (TWO_FIBRES, &[], b"refused BadSet\n"),
    (TWO_FIBRES, &[2, 3, 9], b"refused BadSet\n"),
    (SYMMETRIC, &[5, 4, 3], b"array {3,2;1,3}\n"),
    (SYMMETRIC, &[1, 2], b"array disconnected 0 3\n"),
    (PATH_OF_THREE, &[2, 4], b"array irregular 0 1 1 0\n"),
    (CUBE, &[1, 1], b"array {3,2,1;1,2,3}\n"),
    (CUBE, &[3], b"array disconnected 0 1\n"),
    (PETERSEN, &[1], b"array {3,2;1,1}\n"),
    (PETERSEN, &[2], b"array {6,2;1,4}\n"),
    (PETERSEN, &[2, 1], b"array {9;1}\n"),
    (PATH_OF_FIVE, &[4, 9, 6, 11], b"array irregular 0 2 0 4\n"),
];

// The answer on the graph of a set of classes.
fn graph_answer(alloc: Global, k: &Constants, set: &[u32]) -> Result<Vec<u8>, NoMemory> {
    match array(alloc, k.colouring(), set) {
        Ok(answer) => array_text(alloc, &answer),
        Err(ArrayFault::BadSet) => refused_text(alloc, "BadSet"),
        Err(ArrayFault::NoMemory) => Err(NoMemory),
    }
}

#[test]
fn intersection_arrays(rt: HostRuntime) -> Result<(), Fail> {
    for (matrix, set, line) in &ARRAYS {
        let k = configuration(&rt, matrix)?;
        same(&rt, graph_answer(rt.alloc(), &k, set), line)?;
    }
    Ok(())
}

const CLASSES: &[u8] = b"classes 5
class 0 size 2 valency 1 transpose 0 pair 0 0 fibres 0 0
class 1 size 1 valency 1 transpose 1 pair 1 1 fibres 1 1
class 2 size 2 valency 1 transpose 4 pair 0 1 fibres 0 1
class 3 size 2 valency 1 transpose 3 pair 0 2 fibres 0 0
class 4 size 2 valency 2 transpose 2 pair 1 0 fibres 1 0
";

const CONSTANTS: &[u8] = b"constants 5 entries 14
0 0 0 1
2 4 0 1
3 3 0 1
1 1 1 1
4 2 1 2
0 2 2 1
2 1 2 1
3 2 2 1
0 3 3 1
2 4 3 1
3 0 3 1
1 4 4 1
4 0 4 1
4 3 4 1
";

#[test]
fn classes_and_constants(rt: HostRuntime) -> Result<(), Fail> {
    let k = configuration(&rt, PATH_OF_THREE)?;
    same(&rt, classes_text(rt.alloc(), &k), CLASSES)?;
    same(&rt, constants_text(rt.alloc(), &k), CONSTANTS)
}

// Matrices, the word that they are shown after, and the answer that shows them.
const SHOWN: [(&[u8], MatrixHead, &[u8]); 4] = [
    (
        b"matrix 2\n0 1\n1 0\n",
        MatrixHead::Show,
        b"show points 2 rank 2\n0 1\n1 0\n",
    ),
    (
        b"matrix 2\n0 1\n1 0\n",
        MatrixHead::Quotient,
        b"quotient points 2 rank 2\n0 1\n1 0\n",
    ),
    (ONE_POINT, MatrixHead::Sub, b"sub points 1 rank 1\n0\n"),
    (
        b"matrix 2\n7 7\n7 7\n",
        MatrixHead::Raw,
        b"raw points 2 colours 1\n7 7\n7 7\n",
    ),
];

#[test]
fn matrices_are_shown(rt: HostRuntime) -> Result<(), Fail> {
    for (matrix, head, text) in &SHOWN {
        let matrix = read(&rt, matrix, 1)?;
        same(&rt, matrix_text(rt.alloc(), *head, &matrix), text)?;
    }
    Ok(())
}

#[test]
fn single_lines(rt: HostRuntime) -> Result<(), Fail> {
    let alloc = rt.alloc();
    same(&rt, edit_text(alloc, 5, 13), b"ok points 5 rank 13\n")?;
    let digraph = graph_text(alloc, GraphNote::Digraph6, b"&BP_");
    same(&rt, digraph, b"digraph6 &BP_\n")?;
    let graph = graph_text(alloc, GraphNote::Graph6, b"G?CaC?");
    same(&rt, graph, b"graph6 G?CaC?\n")?;
    same(&rt, close_text(alloc, &[0, 1, 1]), b"close 0 1 1\n")
}

// The cyclic group of four elements.
const SQUARE: &[u8] = b"matrix 4\n0 1 2 3\n3 0 1 2\n2 3 0 1\n1 2 3 0\n";

// Shows the sets that were met, before and after the closed subsets are.
fn shows_sets(rt: &impl Abort, alloc: Global, k: &Constants, keep: &mut Keep) -> Result<(), Fail> {
    keep.begin(4);
    same(rt, sets_text(alloc, SetHead::Good, keep), b"good\nend\n")?;
    let answer = closed(alloc, k, keep);
    assert_eq!(rt; answer, Ok(()));
    let text = b"closed\n0\n0 2\n0 1 2 3\nend\n";
    same(rt, sets_text(alloc, SetHead::Closed, keep), text)
}

// Shows the fusions that were met, as all that there are and as the first of more.
fn shows_fusions(
    rt: &impl Abort,
    alloc: Global,
    k: &Constants,
    keep: &mut Keep,
) -> Result<(), Fail> {
    keep.begin(2);
    let answer = mergings(alloc, k, None, keep);
    assert_eq!(rt; answer, Ok(()));
    assert!(rt; keep.len() <= 2);
    let all = b"mergings\n0 1 1\n0 1 2\nend\n";
    same(rt, mergings_text(alloc, keep, 2), all)?;
    let first = b"mergings\n0 1 1\nnext after 0 1 1\n";
    same(rt, mergings_text(alloc, keep, 1), first)
}

// The closed subsets of the cyclic group of four elements, and the fusions of that of three.
#[test]
fn lists_of_entries(rt: HostRuntime) -> Result<(), Fail> {
    let alloc = rt.alloc();
    let square = configuration(&rt, SQUARE)?;
    shows_sets(&rt, alloc, &square, &mut Keep::new(alloc))?;
    let cycle = configuration(&rt, CYCLE)?;
    shows_fusions(&rt, alloc, &cycle, &mut Keep::new(alloc))
}
