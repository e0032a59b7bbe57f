//! Scripts that are read and refused, and the lines of the demonstration.

use scheme_demo::demo_lines;
use script_text::{
    Act, GraphForm, Line, MOST_LINES, MOST_PRODUCTS, MOST_SCRIPT, ScriptFault, ScriptWord,
    read_script,
};
use std::alloc::{AllocError, Global};
use std::process::Abort;
use std::test::Fail;

// The first words of the line that asks for an act, or the file of a direct product.
fn name_of(act: &Act) -> &[u8] {
    match act {
        Act::Set { .. } => b"set",
        Act::Both { .. } => b"both",
        Act::Fix { .. } => b"fix",
        Act::Join { .. } => b"join",
        Act::Adopt => b"adopt",
        Act::Fuse { .. } => b"fuse",
        Act::Direct { file } => file.as_str().as_bytes(),
        Act::Wreath { .. } => b"wreath",
        Act::Undo => b"undo",
        Act::Redo => b"redo",
        Act::Show => b"show",
        Act::Raw => b"raw",
        Act::Classes => b"classes",
        Act::Constants => b"constants",
        Act::Tests => b"tests",
        Act::Array { .. } => b"array",
        Act::Closed => b"closed",
        Act::Quotient { .. } => b"quotient",
        Act::Sub { .. } => b"sub",
        Act::Close { .. } => b"close",
        Act::Good => b"good",
        Act::Mergings { after: None, .. } => b"mergings",
        Act::Mergings { .. } => b"mergings after",
        Act::Trace { .. } => b"trace",
        Act::Write {
            form: GraphForm::Graph6,
            ..
        } => b"write graph6",
        Act::Write {
            form: GraphForm::Digraph6,
            ..
        } => b"write digraph6",
    }
}

// Whether an act asks for these numbers, in the order of its fields.
fn has_numbers(act: &Act, numbers: &[u32]) -> bool {
    match act {
        Act::Set { x, y, colour } | Act::Both { x, y, colour } => {
            numbers == [*x, *y, *colour].as_slice()
        }
        Act::Fix { x } => numbers == [*x].as_slice(),
        Act::Join { keep, gone } => numbers == [*keep, *gone].as_slice(),
        Act::Fuse { string } | Act::Close { string } => numbers == string.as_slice(),
        Act::Array { set } | Act::Quotient { set } | Act::Write { set, .. } => {
            numbers == set.as_slice()
        }
        Act::Sub { x, set } => is_joined(numbers, *x, set.as_slice()),
        Act::Mergings { most, after } => match after {
            Some(after) => is_joined(numbers, *most, after.as_slice()),
            None => numbers == [*most].as_slice(),
        },
        Act::Trace { version } => numbers == [*version].as_slice(),
        _ => numbers.is_empty(),
    }
}

// Whether the numbers are a first one and others.
fn is_joined(numbers: &[u32], first: u32, others: &[u32]) -> bool {
    match numbers {
        [number, rest @ ..] => *number == first && rest == others,
        [] => false,
    }
}

// Each act, between blanks, tabs, comments and line ends of both sorts.
const SCRIPT: &[u8] =
    b"set 0 1 2\n\tboth  3\t4 65536 \r\n# a comment\n\n \t\nfix 4294967295\njoin 9 1\nadopt\n\
    fuse 0 1 1 2\ndirect #f\nwreath a-b\n  # set 1\nundo\nredo\nshow\nraw\nclasses\nconstants\ntests\n\
    array 1\nclosed\nquotient 0 3\nsub 8 0 2\nclose 0 1 2 2\ngood\nmergings 10000\n\
    mergings 2 after 0 1 1 2\ntrace\nwrite graph6 1\nwrite digraph6 2 1 1\ntrace 2\n\ttrace\t2 \r";

// The number of each line, its first words, and its numbers.
const LINES: [(u32, &[u8], &[u32]); 28] = [
    (1, b"set", &[0, 1, 2]),
    (2, b"both", &[3, 4, 65_536]),
    (6, b"fix", &[4_294_967_295]),
    (7, b"join", &[9, 1]),
    (8, b"adopt", &[]),
    (9, b"fuse", &[0, 1, 1, 2]),
    (10, b"#f", &[]),
    (11, b"wreath", &[]),
    (13, b"undo", &[]),
    (14, b"redo", &[]),
    (15, b"show", &[]),
    (16, b"raw", &[]),
    (17, b"classes", &[]),
    (18, b"constants", &[]),
    (19, b"tests", &[]),
    (20, b"array", &[1]),
    (21, b"closed", &[]),
    (22, b"quotient", &[0, 3]),
    (23, b"sub", &[8, 0, 2]),
    (24, b"close", &[0, 1, 2, 2]),
    (25, b"good", &[]),
    (26, b"mergings", &[10_000]),
    (27, b"mergings after", &[2, 0, 1, 1, 2]),
    (28, b"trace", &[1]),
    (29, b"write graph6", &[1]),
    (30, b"write digraph6", &[2, 1, 1]),
    (31, b"trace", &[2]),
    (32, b"trace", &[2]),
];

// The lines of the demonstration, which are the same for all numbers.
const DEMO_LINES: [(u32, &[u8], &[u32]); 7] = [
    (1, b"tests", &[]),
    (2, b"both", &[0, 1, 4]),
    (3, b"undo", &[]),
    (4, b"join", &[2, 3]),
    (5, b"tests", &[]),
    (6, b"fix", &[0]),
    (7, b"adopt", &[]),
];

// The line has this number, and asks for the act with these first words and numbers.
fn is_line(rt: &impl Abort, line: &Line, number: u32, name: &[u8], numbers: &[u32]) {
    assert_eq!(rt; line.number, number);
    let act = name_of(&line.act) == name && has_numbers(&line.act, numbers);
    assert!(rt; act, "{number}");
}

// The lines are the wanted ones.
fn are_lines(rt: &impl Abort, lines: &[Line], wanted: &[(u32, &[u8], &[u32])]) {
    assert_eq!(rt; lines.len(), wanted.len());
    for (line, (number, name, numbers)) in lines.iter().zip(wanted) {
        is_line(rt, line, *number, name, numbers);
    }
}

#[test]
fn each_act_is_read(rt: HostRuntime) -> Result<(), Fail> {
    assert!(rt; SCRIPT.len() <= MOST_SCRIPT as usize);
    are_lines(&rt, &read_script(rt.alloc(), SCRIPT)?, &LINES);
    Ok(())
}

#[test]
fn the_demonstration_has_seven_lines(rt: HostRuntime) -> Result<(), Fail> {
    are_lines(&rt, &demo_lines(rt.alloc())?, &DEMO_LINES);
    Ok(())
}

// The text has this fault, or none.
fn has_fault(rt: &(impl Abort + AllocGlobal), text: &[u8], fault: Option<(u32, ScriptWord)>) {
    assert!(rt; text.len() <= MOST_SCRIPT as usize);
    let found = read_script(rt.alloc(), text).err();
    let wanted = fault.map(|(line, what)| ScriptFault::Text { line, what });
    assert_eq!(rt; found, wanted);
}

// Scripts, and their first fault with its line.
const FAULTS: [(&[u8], u32, ScriptWord); 28] = [
    (b"shwo\n", 1, ScriptWord::UnknownWord),
    (b"show\nmergings 0\n", 2, ScriptWord::BadLimit),
    (b"mergings 4294967295", 1, ScriptWord::BadLimit),
    (b"mergings", 1, ScriptWord::WrongCount),
    (b"mergings 5 after", 1, ScriptWord::WrongCount),
    (b"mergings 5 5", 1, ScriptWord::UnknownWord),
    (b"mergings 0 after x", 1, ScriptWord::BadNumber),
    (b"write", 1, ScriptWord::WrongCount),
    (b"write 0", 1, ScriptWord::UnknownWord),
    (b"write graph6", 1, ScriptWord::WrongCount),
    (b"trace 1", 1, ScriptWord::UnknownWord),
    (b"trace 02", 1, ScriptWord::UnknownWord),
    (b"trace x", 1, ScriptWord::UnknownWord),
    (b"trace 1 1", 1, ScriptWord::UnknownWord),
    (b"trace 2 2", 1, ScriptWord::WrongCount),
    (b"trace 2\ntrace 2 x", 2, ScriptWord::WrongCount),
    (b"direct -", 1, ScriptWord::BadName),
    (b"wreath", 1, ScriptWord::WrongCount),
    (b"set 1 2", 1, ScriptWord::WrongCount),
    (b"sub 1", 1, ScriptWord::WrongCount),
    (b"show 1", 1, ScriptWord::WrongCount),
    (b"\n# x\r\nfix 01", 3, ScriptWord::BadNumber),
    (b"fuse 0 4294967296", 1, ScriptWord::BadNumber),
    (b"set x 2\nshwo", 1, ScriptWord::WrongCount),
    (b"show # x", 1, ScriptWord::WrongCount),
    (b"show\r\r\n", 1, ScriptWord::BadByte),
    (b"# \x7f", 1, ScriptWord::BadByte),
    (b"\x0b\n", 1, ScriptWord::BadByte),
];

#[test]
fn the_first_fault_is_named(rt: HostRuntime) {
    for (text, line, what) in &FAULTS {
        has_fault(&rt, text, Some((*line, *what)));
    }
}

// Lines, how many times they are repeated, what comes last, and the fault of all that.
const MANY: [(&[u8], u32, &[u8], Option<(u32, ScriptWord)>); 6] = [
    (b"\n", MOST_LINES, b"", None),
    (
        b"\n",
        MOST_LINES,
        b"\n",
        Some((MOST_LINES + 1, ScriptWord::TooManyLines)),
    ),
    (
        b"# x\n",
        MOST_LINES,
        b"\x7f",
        Some((MOST_LINES + 1, ScriptWord::TooManyLines)),
    ),
    (b"direct F\n", MOST_PRODUCTS - 1, b"#\nwreath F", None),
    (
        b"direct F\n",
        MOST_PRODUCTS,
        b"wreath F",
        Some((MOST_PRODUCTS + 1, ScriptWord::TooManyProducts)),
    ),
    (
        b"wreath F\n",
        MOST_PRODUCTS,
        b"direct -",
        Some((MOST_PRODUCTS + 1, ScriptWord::BadName)),
    ),
];

// The line so many times, and then the last one.
fn repeated(alloc: Global, line: &[u8], times: u32, last: &[u8]) -> Result<Vec<u8>, AllocError> {
    let mut text = Vec::new(alloc);
    for _ in 0..times {
        text.extend_from_slice(line)?;
    }
    text.extend_from_slice(last)?;
    Ok(text)
}

#[test]
fn lines_and_products_are_counted(rt: HostRuntime) -> Result<(), Fail> {
    for (line, times, last, fault) in &MANY {
        has_fault(&rt, &repeated(rt.alloc(), line, *times, last)?, *fault);
    }
    Ok(())
}
