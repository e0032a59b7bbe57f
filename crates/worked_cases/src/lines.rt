//! Texts that are cut into lines, words and numbers, and one that is put together.

use crate::fixtures::same_bytes;
use std::process::Abort;
use std::test::Fail;
use text_lines::{Text, TextPart, lines, read_number, words};

// Texts, and their lines with the places where these start.
const LINES: [(&[u8], &[(usize, &[u8])]); 5] = [
    (b"", &[]),
    (b"\n", &[(0, b"")]),
    (b"\r", &[(0, b"")]),
    (
        b"set 1\r\n\nb\r\r\nlast",
        &[(0, b"set 1"), (7, b""), (8, b"b\r"), (12, b"last")],
    ),
    (b"a\nb\r\n", &[(0, b"a"), (2, b"b")]),
];

// The part that comes next is the wanted one.
fn is_part(rt: &impl Abort, part: Option<TextPart<'_>>, wanted: Option<(usize, &[u8])>) {
    let found = part.map(|part| (part.start, part.bytes));
    assert_eq!(rt; found, wanted);
}

// The text has these lines.
fn has_lines(rt: &impl Abort, text: &[u8], wanted: &[(usize, &[u8])]) {
    let mut left = lines(text);
    for part in wanted {
        is_part(rt, left.next(), Some(*part));
    }
    is_part(rt, left.next(), None);
}

#[test]
fn lines_are_cut(rt: HostRuntime) {
    for (text, wanted) in &LINES {
        has_lines(&rt, text, wanted);
    }
}

// The line has these words.
fn has_words(rt: &impl Abort, line: TextPart<'_>, wanted: &[(usize, &[u8])]) {
    let mut left = words(line);
    for part in wanted {
        is_part(rt, left.next(), Some(*part));
    }
    is_part(rt, left.next(), None);
}

#[test]
fn words_are_cut(rt: HostRuntime) {
    let line = lines(b"x\n \t\tset \t1 2\r\r\n").nth(1);
    let line = line.expect(&rt, "a second line");
    has_words(&rt, line, &[(5, b"set"), (10, b"1"), (12, b"2\r")]);
}

// Words, and the numbers that they are.
const NUMBERS: [(&[u8], Option<u32>); 9] = [
    (b"0", Some(0)),
    (b"65535", Some(65_535)),
    (b"4294967295", Some(4_294_967_295)),
    (b"4294967296", None),
    (b"", None),
    (b"00", None),
    (b"+1", None),
    (b"1 ", None),
    (b"\xff", None),
];

#[test]
fn numbers_are_read(rt: HostRuntime) {
    for (word, number) in &NUMBERS {
        assert_eq!(rt; read_number(word), *number);
    }
}

// Puts one of each kind of part.
fn put_each(text: &mut Text) -> Result<(), Fail> {
    text.put_field(b"points ", 128)?;
    text.put(b" sum ")?;
    text.put_number(u64::MAX)?;
    text.put_line(b"\nrow ", &[0, 65_535, 7])?;
    text.put_numbers(b',', &[4_294_967_295])?;
    text.put_next(b',', 1, 0)?;
    text.put_numbers(b';', &[])?;
    Ok(())
}

#[test]
fn texts_are_put_together(rt: HostRuntime) -> Result<(), Fail> {
    let mut text = Text::with_room(rt.alloc(), 4)?;
    put_each(&mut text)?;
    let wanted = b"points 128 sum 18446744073709551615\nrow 0 65535 7\n4294967295,0";
    same_bytes(&rt, &text.into_bytes(), wanted);
    Ok(())
}
