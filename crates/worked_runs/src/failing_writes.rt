//! Outputs that fail, at each call in turn and where they are full: a front of the answers, and never
//! all of them, is written and nothing is said, so that no memory is told to be wanting.

use crate::runs::{ends_to, store_of, wrote};
use crate::tasks::{
    ACCEPTED, ANSWERS, CELL_CHECKS, PRODUCTS, QUESTIONS, REFUSED, SEVEN, TABLE, Task, joined,
};
use cohere_core::Status;
use scheme_io::MemorySink;
use std::alloc::Global;
use std::process::Abort;
use std::test::Fail;

// An output that takes at most so many bytes a call, and so many in all, and fails at a call.
#[derive(Clone, Copy)]
struct Failing {
    most: u32,
    room: u32,
    call: u32,
}

// The front is one of the answers of the task, and shorter than they are.
fn is_proper_front(
    rt: &impl Abort,
    alloc: Global,
    task: &Task<'_>,
    front: &[u8],
) -> Result<(), Fail> {
    let (_, _, _, pieces) = task;
    let text = joined(alloc, pieces)?;
    assert_eq!(rt; text.starts_with(front), true);
    assert_eq!(rt; front.len() < text.len(), true);
    Ok(())
}

// The answers of the task are cut short by the output.
fn is_cut(
    rt: &impl Abort,
    alloc: Global,
    task: &Task<'_>,
    failing: Failing,
    front: &[u8],
) -> Result<(), Fail> {
    let (words, files, _, _) = task;
    is_proper_front(rt, alloc, task, front)?;
    assert!(rt; failing.most >= 1);
    let mut store = store_of(alloc, files)?;
    let mut out = MemorySink::new(alloc, failing.most, failing.room)?;
    out.fail_at(failing.call)?;
    let cut = wrote(Status::SinkFailed, front);
    ends_to(rt, alloc, front.len(), words, &mut store, &mut out, cut)
}

// The output takes an answer a call, and fails at each call in turn.
fn is_cut_at_each_answer(rt: &impl Abort, alloc: Global, task: &Task<'_>) -> Result<(), Fail> {
    let (_, _, _, pieces) = task;
    for call in 0..1000u32 {
        if call as usize >= pieces.len() {
            return Ok(());
        }
        let front = joined(alloc, &pieces[..call as usize])?;
        let failing = Failing {
            most: 1000,
            room: 1000,
            call,
        };
        is_cut(rt, alloc, task, failing, &front)?;
    }
    panic!(rt; "the task has more than 1000 answers");
}

// The output takes a byte a call and fails at each call in turn, or is full after so many bytes.
fn is_cut_at_each_byte(rt: &impl Abort, alloc: Global, task: &Task<'_>) -> Result<(), Fail> {
    let (_, _, _, pieces) = task;
    let text = joined(alloc, pieces)?;
    for count in 0..1000u32 {
        if count as usize >= text.len() {
            return Ok(());
        }
        let front = &text[..count as usize];
        let fails = Failing {
            most: 1,
            room: 1000,
            call: count,
        };
        is_cut(rt, alloc, task, fails, front)?;
        let is_full = Failing {
            most: 16,
            room: count,
            call: 1000,
        };
        is_cut(rt, alloc, task, is_full, front)?;
    }
    panic!(rt; "the answers have more than 1000 bytes");
}

#[test]
fn writes_of_answers_that_fail(rt: HostRuntime) -> Result<(), Fail> {
    assert_eq!(rt; Status::SinkFailed.code(), 5);
    is_cut_at_each_answer(&rt, rt.alloc(), &ANSWERS)?;
    is_cut_at_each_answer(&rt, rt.alloc(), &PRODUCTS)?;
    is_cut_at_each_byte(&rt, rt.alloc(), &PRODUCTS)
}

#[test]
fn writes_of_verdicts_that_fail(rt: HostRuntime) -> Result<(), Fail> {
    for task in [ACCEPTED, REFUSED] {
        is_cut_at_each_answer(&rt, rt.alloc(), &task)?;
        is_cut_at_each_byte(&rt, rt.alloc(), &task)?;
    }
    Ok(())
}

#[test]
fn writes_of_a_demonstration_that_fail(rt: HostRuntime) -> Result<(), Fail> {
    is_cut_at_each_answer(&rt, rt.alloc(), &SEVEN)
}

#[test]
fn writes_of_answers_to_questions_that_fail(rt: HostRuntime) -> Result<(), Fail> {
    for task in &QUESTIONS {
        is_cut_at_each_byte(&rt, rt.alloc(), task)?;
    }
    is_cut_at_each_byte(&rt, rt.alloc(), &TABLE)
}

#[test]
fn writes_of_verdicts_on_cells_that_fail(rt: HostRuntime) -> Result<(), Fail> {
    for task in &CELL_CHECKS {
        is_cut_at_each_byte(&rt, rt.alloc(), task)?;
    }
    Ok(())
}

// Tasks, outputs that take some bytes a call and fail at a call, and the fronts that they leave.
const FRONTS: [(Task<'static>, u32, u32, &[u8]); 8] = [
    (
        ANSWERS,
        1,
        40,
        b"show points 8 rank 4\n0 1 1 2 1 2 2 3\n1 0",
    ),
    (ANSWERS, 1, 0, b""),
    (ANSWERS, 1, 1, b"s"),
    (ANSWERS, 16, 1, b"show points 8 ra"),
    (ACCEPTED, 7, 1, b"accepte"),
    (SEVEN, 7, 0, b""),
    (SEVEN, 7, 1, b"demo 7 "),
    (SEVEN, 7, 4, b"demo 7 points 23\ntests h"),
];

#[test]
fn fronts_of_answers(rt: HostRuntime) -> Result<(), Fail> {
    for (task, most, call, front) in FRONTS {
        let failing = Failing {
            most,
            room: 1000,
            call,
        };
        is_cut(&rt, rt.alloc(), &task, failing, front)?;
    }
    // Full after 21 bytes.
    let full = Failing {
        most: 16,
        room: 21,
        call: 1000,
    };
    is_cut(&rt, rt.alloc(), &ANSWERS, full, b"show points 8 rank 4\n")
}

// Without a fault the answers are written whole, a byte a call.
#[test]
fn outputs_that_do_not_fail(rt: HostRuntime) -> Result<(), Fail> {
    let (words, files, status, pieces) = ANSWERS;
    let text = joined(rt.alloc(), pieces)?;
    let mut store = store_of(rt.alloc(), files)?;
    let mut out = MemorySink::new(rt.alloc(), 1, 1000)?;
    let whole = wrote(status, &text);
    ends_to(&rt, rt.alloc(), 0, words, &mut store, &mut out, whole)
}
