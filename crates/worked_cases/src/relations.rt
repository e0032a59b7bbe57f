//! Relations that are read, refused and written: graph6, digraph6 and matrices of colours.

use crate::fixtures::{CUBE, CYCLE, PATH, PENTAGON, read, same_bytes};
use relation_text::{
    RelationFault, RelationWord, WriteFault, write_digraph6, write_graph6, write_matrix,
};
use std::process::Abort;
use std::test::Fail;

// The matrix of McKay's example of a digraph.
const DIGRAPH: &[u8] = b"matrix 5\n0 2 1 2 1\n2 0 2 2 2\n2 2 0 2 2\n2 1 2 0 1\n2 2 2 2 0\n";

// Texts, the line that is read, and the matrix that is written of what was read.
const READINGS: [(&[u8], u32, &[u8]); 13] = [
    (b"DQc\n", 1, PATH),
    (b"DQc", 1, PATH),
    (b">>graph6<<DQc\r\n", 1, PATH),
    (b"&DI?AO?\n", 1, DIGRAPH),
    (b">>digraph6<<&DI?AO?\n", 1, DIGRAPH),
    // The second of three lines, of which the third is none.
    (b"DQc\nDhc\nD Q\n", 2, PENTAGON),
    (b"@\n", 1, b"matrix 1\n0\n"),
    (b"&@_\n", 1, b"matrix 1\n3\n"),
    (b"matrix 2\n7 7\n7 7\n", 1, b"matrix 2\n7 7\n7 7\n"),
    (
        b"&BP_\nmatrix 2\r\n \t0  1048575 \r\n1 2\nx",
        2,
        b"matrix 2\n0 1048575\n1 2\n",
    ),
    (b"&BP_\n", 1, CYCLE),
    (CUBE, 1, CUBE),
    (CYCLE, 1, CYCLE),
];

// The matrix of what is read is the wanted one.
fn has_matrix(
    rt: &(impl Abort + AllocGlobal),
    text: &[u8],
    line: u32,
    matrix: &[u8],
) -> Result<(), Fail> {
    let relation = read(rt, text, line)?;
    let written = write_matrix(rt.alloc(), &relation)?;
    same_bytes(rt, &written, matrix);
    Ok(())
}

#[test]
fn relations_are_read(rt: HostRuntime) -> Result<(), Fail> {
    for (text, line, matrix) in &READINGS {
        has_matrix(&rt, text, *line, matrix)?;
    }
    Ok(())
}

// Sizes in their long form, how many bytes their lines have, and how many points that is.
const LONG_SIZES: [(&[u8], usize, u32); 2] = [(b"~??~", 330, 63), (b"~?C?", 5444, 256)];

// The line that begins so, and goes on with bytes `?`, which are zeros, has so many points.
fn has_points(
    rt: &(impl Abort + AllocGlobal),
    front: &[u8],
    len: usize,
    points: u32,
) -> Result<(), Fail> {
    let mut text = Vec::from_slice(rt.alloc(), front)?;
    text.resize(len, b'?')?;
    let relation = read(rt, &text, 1)?;
    assert_eq!(rt; relation.size(), points);
    Ok(())
}

#[test]
fn long_sizes_are_read(rt: HostRuntime) -> Result<(), Fail> {
    for (front, len, points) in &LONG_SIZES {
        has_points(&rt, front, *len, *points)?;
    }
    Ok(())
}

// Texts, the line that is asked for, and the fault with its place.
const FAULTS: [(&[u8], u32, RelationWord, u32); 35] = [
    (b"?\n", 1, RelationWord::NoPoints, 0),
    (b"DQd\n", 1, RelationWord::PadBits, 2),
    (b"DQ\n", 1, RelationWord::WrongLength, 2),
    (b"DQc?\n", 1, RelationWord::WrongLength, 4),
    (b"~?C@\n", 1, RelationWord::TooManyPoints, 0),
    (b"~??D\n", 1, RelationWord::SizeForm, 0),
    (b":An\n", 1, RelationWord::BadByte, 0),
    (b"", 1, RelationWord::NoLine, 0),
    (b"matrix 2\n0 1\n1\n", 1, RelationWord::MatrixCount, 14),
    (b"matrix 1\n1048576\n", 1, RelationWord::ColourTooLarge, 9),
    (b"matrix 1\n07\n", 1, RelationWord::MatrixNumber, 9),
    (b"matrix x\n", 1, RelationWord::MatrixHead, 0),
    (b"DQc\nDhc\nD Q\n", 4, RelationWord::NoLine, 12),
    // Lines.
    (b"\r", 1, RelationWord::WrongLength, 0),
    (b"DQc\n\nDQc\n", 2, RelationWord::WrongLength, 4),
    (b"DQc\nDQ\r\n", 2, RelationWord::WrongLength, 6),
    (b"matrix\n", 1, RelationWord::WrongLength, 6),
    // Headers.
    (b">>graph6<<", 1, RelationWord::WrongLength, 10),
    (b">>graph6<<matrix x", 1, RelationWord::MatrixHead, 10),
    (b">>digraph6<<DQd\n", 1, RelationWord::PadBits, 14),
    (
        b">>graph6<<DQc\n>>graph6<<DQc\n",
        2,
        RelationWord::BadByte,
        14,
    ),
    // Sizes.
    (b"~~????\n", 1, RelationWord::TooManyPoints, 0),
    (b"~?A\n", 1, RelationWord::WrongLength, 3),
    (b"~?AB\n", 1, RelationWord::WrongLength, 4),
    (b"&\n", 1, RelationWord::WrongLength, 1),
    (b"&?\n", 1, RelationWord::NoPoints, 1),
    (b"&@@\n", 1, RelationWord::PadBits, 2),
    // Matrices.
    (b"matrix 0\n", 1, RelationWord::NoPoints, 7),
    (b"matrix 5000\n", 1, RelationWord::TooManyPoints, 7),
    (b"matrix  2\n", 1, RelationWord::MatrixHead, 0),
    (b"matrix 2\n0 1\n", 1, RelationWord::MatrixCount, 13),
    (b"matrix 2\n0 1 2\n1 0\n", 1, RelationWord::MatrixCount, 13),
    (
        b"matrix 2\n0 -1 070000\n1 0\n",
        1,
        RelationWord::BadByte,
        11,
    ),
    (
        b"matrix 2\n0 070000 1\n1 0\n",
        1,
        RelationWord::MatrixNumber,
        11,
    ),
    (
        b"matrix 1\n 1000000000000000000000000000000000000000\n",
        1,
        RelationWord::ColourTooLarge,
        10,
    ),
];

// The text has this fault.
fn has_fault(rt: &(impl Abort + AllocGlobal), text: &[u8], line: u32, what: RelationWord, at: u32) {
    let fault = read(rt, text, line).err();
    assert_eq!(rt; fault, Some(RelationFault::Text { what, at }), "{at}");
}

#[test]
fn texts_are_refused(rt: HostRuntime) {
    for (text, line, what, at) in &FAULTS {
        has_fault(&rt, text, *line, *what, *at);
    }
}

// Matrices, sets of their colours, and the graph6 line of each set that is one of edges.
const GRAPHS: [(&[u8], &[u32], Option<&[u8]>); 7] = [
    (CUBE, &[1], Some(b"Gr`HOk")),
    (CUBE, &[3, 3], Some(b"G?CaC?")),
    (CUBE, &[4], None),
    (CUBE, &[1, 0, 3], None),
    // The two arcs of each edge, in either order, make the triangle.
    (CYCLE, &[1], None),
    (CYCLE, &[1, 2], Some(b"Bw")),
    (CYCLE, &[2, 1], Some(b"Bw")),
];

// And the same for digraph6.
const DIGRAPHS: [(&[u8], &[u32], Option<&[u8]>); 2] = [
    (CYCLE, &[1], Some(b"&BP_")),
    (CYCLE, &[1, 3], None),
];

// What is written is the wanted line, or the set is refused where none is wanted.
fn is_written(
    rt: &impl Abort,
    written: Result<Vec<u8>, WriteFault>,
    wanted: Option<&[u8]>,
) -> Result<(), Fail> {
    match wanted {
        Some(wanted) => same_bytes(rt, &written?, wanted),
        None => assert_eq!(rt; written.err(), Some(WriteFault::BadSet)),
    }
    Ok(())
}

#[test]
fn graphs_are_written(rt: HostRuntime) -> Result<(), Fail> {
    for (matrix, set, line) in &GRAPHS {
        let relation = read(&rt, matrix, 1)?;
        is_written(&rt, write_graph6(rt.alloc(), &relation, set), *line)?;
    }
    Ok(())
}

#[test]
fn digraphs_are_written(rt: HostRuntime) -> Result<(), Fail> {
    for (matrix, set, line) in &DIGRAPHS {
        let relation = read(&rt, matrix, 1)?;
        is_written(&rt, write_digraph6(rt.alloc(), &relation, set), *line)?;
    }
    Ok(())
}
