//! Lines with numbers between single spaces, line after line.

use crate::fixtures::{read, same_bytes, same_numbers};
use std::process::Abort;
use std::test::Fail;
use text_lines::{LineCursor, Text, cut_word, fill_numbers, number_to, put_rows, read_points};

// What is left of a line, the limit of its numbers, how many there are to be, the list that they are
// written over, and what that is then, where they are such numbers.
type Row = (
    Option<&'static [u8]>,
    u32,
    u32,
    &'static [u32],
    Option<&'static [u32]>,
);

const ROWS: [Row; 11] = [
    (
        Some(b"3 0 1048575"),
        1_048_575,
        3,
        &[9, 9, 9],
        Some(&[3, 0, 1_048_575]),
    ),
    (Some(b"3 0 1048575"), 1_048_574, 3, &[9, 9, 9], None),
    (Some(b"3 0 1048575"), 1_048_575, 2, &[9, 9, 9], None),
    (Some(b"3 0 1048575"), 1_048_575, 4, &[9, 9, 9, 9], None),
    // Two spaces have an empty word between them.
    (Some(b"3  0"), 9, 2, &[9, 9], None),
    (Some(b"03"), 9, 1, &[9], None),
    (Some(b""), 9, 1, &[9], None),
    (None, 9, 0, &[], Some(&[])),
    (None, 9, 1, &[9], None),
    // An empty line has one empty word.
    (Some(b""), 9, 0, &[], None),
    (Some(b"5"), 9, 1, &[7, 7], Some(&[5, 7])),
];

// A row of the table is as it says.
fn is_filled(rt: &(impl Abort + AllocGlobal), row: &Row) -> Result<(), Fail> {
    let (rest, limit, count, before, after) = *row;
    let mut numbers = Vec::from_slice(rt.alloc(), before)?;
    assert!(rt; count as usize <= numbers.len());
    let filled = fill_numbers(rest, limit, count, &mut numbers);
    assert_eq!(rt; filled, after.is_some());
    if let Some(after) = after {
        same_numbers(rt, &numbers, after);
    }
    Ok(())
}

#[test]
fn numbers_are_filled_in(rt: HostRuntime) -> Result<(), Fail> {
    for row in &ROWS {
        is_filled(&rt, row)?;
    }
    Ok(())
}

// Lines, their first words, and what is left behind a space.
const CUTS: [(&[u8], &[u8], Option<&[u8]>); 3] = [
    (b"S 1 2", b"S", Some(b"1 2")),
    (b"S ", b"S", Some(b"")),
    (b"S", b"S", None),
];

#[test]
fn first_words_are_cut(rt: HostRuntime) {
    for (line, word, rest) in &CUTS {
        assert_eq!(rt; cut_word(line), (*word, *rest));
    }
}

// Words, limits, and the numbers that they are up to these.
const LIMITED: [(&[u8], u32, Option<u32>); 2] = [(b"12", 12, Some(12)), (b"13", 12, None)];

#[test]
fn numbers_have_limits(rt: HostRuntime) {
    for (word, limit, number) in &LIMITED {
        assert_eq!(rt; number_to(word, *limit), *number);
    }
}

// Lines, and the points that they tell.
const POINTS: [(&[u8], Option<u32>); 6] = [
    (b"points 256", Some(256)),
    (b"points 257", None),
    (b"points 0", None),
    (b"points", None),
    (b"points 01", None),
    (b"point 3", None),
];

#[test]
fn points_are_read(rt: HostRuntime) {
    for (line, points) in &POINTS {
        assert_eq!(rt; read_points(line), *points);
    }
}

// Calls for the lines of a text: the number before the call, and the line that is taken.
const TAKEN: [(u32, Option<&[u8]>); 5] = [
    (1, Some(b"a")),
    (2, Some(b"")),
    (3, Some(b"b")),
    (4, None),
    (4, None),
];

#[test]
fn lines_are_taken(rt: HostRuntime) {
    let mut cursor = LineCursor::new(b"a\r\n\nb");
    for (number, line) in &TAKEN {
        assert_eq!(rt; cursor.line(), *number);
        assert_eq!(rt; cursor.take(), *line);
    }
}

#[test]
fn rows_are_put(rt: HostRuntime) -> Result<(), Fail> {
    let colouring = read(&rt, b"matrix 2\n0 1\n1 0\n", 1)?;
    let mut text = Text::new(rt.alloc());
    put_rows(&mut text, &colouring)?;
    same_bytes(&rt, &text.into_bytes(), b"0 1\n1 0\n");
    Ok(())
}
