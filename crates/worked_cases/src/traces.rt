//! Traces that are read, refused and written, and what there is to say of the claims in them.

use crate::fixtures::same_bytes;
use cohere_inputs::check_input;
use pair_colours::{Colouring, NoMemory};
use scheme_io::MemoryStore;
use std::alloc::Global;
use std::process::Abort;
use std::test::Fail;
use trace_check::{CheckWord, Verdict, check};
use trace_text::{
    Chain, Claim, MOST_TRACE, Stage, Step, Steps, TraceFault, TraceWord, read_trace, write_trace,
};

// Puts two steps into a list, in which they are found again.
fn two_steps(rt: &(impl Abort + AllocGlobal), first: Step, second: Step) -> Result<Steps, Fail> {
    let mut steps = Steps::new(rt.alloc());
    steps.push(first)?;
    steps.push(second)?;
    assert_eq!(rt; (steps.len(), steps.at(0), steps.at(1)), (2, first, second));
    Ok(steps)
}

// A chain of one stage.
fn chain_of(alloc: Global, colours: Colouring, steps: Steps) -> Result<Chain, NoMemory> {
    let mut chain = Chain::new(alloc);
    chain.push(Stage { colours, steps })?;
    Ok(chain)
}

#[test]
fn a_chain_of_one_stage(rt: HostRuntime) -> Result<(), Fail> {
    let first = Step::Diag { class: 0 };
    let second = Step::Tri {
        class: 0,
        left: 1,
        right: 65_535,
    };
    let steps = two_steps(&rt, first, second)?;
    let chain = chain_of(rt.alloc(), Colouring::new(rt.alloc(), 2, 7)?, steps)?;
    assert_eq!(rt; chain.as_slice().len(), 1);
    let closure = Colouring::new(rt.alloc(), 2, 0)?;
    let text = write_trace(rt.alloc(), 1, chain.as_slice(), &closure)?;
    let wanted = b"trace 1\npoints 2\nstage\n7 7\n7 7\nD 0\nT 0 1 65535\nclosure\n0 0\n0 0\nend\n";
    same_bytes(&rt, &text, wanted);
    Ok(())
}

// Texts that are no traces, each with the line and the word of its fault.
const FAULTS: [(&[u8], u32, TraceWord); 17] = [
    (b"", 1, TraceWord::Head),
    (b"trace 9\npoints 2\n", 1, TraceWord::Head),
    (b"trace 1", 2, TraceWord::Points),
    (b"trace 02\npoints 1\n", 1, TraceWord::Head),
    (b"trace 1\npoints 1\nstage\n0\nR\n", 5, TraceWord::Body),
    (b"trace 2\npoints 1\nstage\n0\nR\nR 0\n", 6, TraceWord::Body),
    (b"trace 2\npoints 1\nstage\n0\nR \n", 5, TraceWord::Body),
    (b"trace 1\npoints 0\n", 2, TraceWord::Points),
    (b"trace 1\npoints 257\n", 2, TraceWord::Points),
    (b"trace 1\npoints 1\nclosure\n", 3, TraceWord::Stage),
    (b"trace 1\npoints 1\nstage\n0 \n", 4, TraceWord::Row),
    (b"trace 1\npoints 1\nstage\n1048576\n", 4, TraceWord::Row),
    (b"trace 1\npoints 2\nstage\n0 1\n1\n", 5, TraceWord::Row),
    (
        b"trace 1\npoints 1\nstage\n0\nD 65536\n",
        5,
        TraceWord::Body,
    ),
    (b"trace 1\npoints 1\nstage\n0\nT 0 0\n", 5, TraceWord::Body),
    (
        b"trace 1\npoints 1\nstage\n0\nclosure\n0\n",
        7,
        TraceWord::End,
    ),
    (
        b"trace 1\npoints 1\nstage\n0\nclosure\n0\nend\n\r",
        8,
        TraceWord::Extra,
    ),
];

// What is read of a text within the limit.
fn read(rt: &(impl Abort + AllocGlobal), text: &[u8]) -> Result<Claim, TraceFault> {
    assert!(rt; text.len() <= MOST_TRACE as usize);
    read_trace(rt.alloc(), text)
}

// The text has this fault.
fn has_fault(rt: &(impl Abort + AllocGlobal), text: &[u8], line: u32, what: TraceWord) {
    let fault = read(rt, text).err();
    assert_eq!(rt; fault, Some(TraceFault::Text { line, what }));
}

#[test]
fn faults_of_texts(rt: HostRuntime) {
    for (text, line, what) in &FAULTS {
        has_fault(&rt, text, *line, *what);
    }
}

const TRACES: [&[u8]; 4] = [
    b"trace 1\npoints 2\nstage\n7 7\n7 7\nD 0\nclosure\n0 1\n1 0\nend\n",
    b"trace 1\npoints 2\nstage\n7 65535\n7 7\nstage\n1 2\n3 4\nF 1 2\nT 0 1 2\nD 3\nclosure\n0 1\n1 0\nend\n",
    b"trace 1\npoints 1\nstage\n0\nclosure\n0\nend\n",
    b"trace 2\npoints 2\nstage\n7 7\n7 7\nR\nD 1\nR\nclosure\n0 1\n1 0\nend\n",
];

// The claim is written as the text.
fn is_written(rt: &(impl Abort + AllocGlobal), claim: &Claim, text: &[u8]) -> Result<(), Fail> {
    let stages = claim.chain.as_slice();
    let written = write_trace(rt.alloc(), claim.version, stages, &claim.closure)?;
    same_bytes(rt, &written, text);
    Ok(())
}

// Traces are read, and written again.
#[test]
fn traces_are_read(rt: HostRuntime) -> Result<(), Fail> {
    for text in &TRACES {
        is_written(&rt, &read(&rt, text)?, text)?;
    }
    Ok(())
}

// Traces of two points, and the verdict on each: ten of one stage, and one whose later stage does
// not refine the first.
const CLAIMS: [(&[u8], Verdict); 11] = [
    (
        b"trace 2\npoints 2\nstage\n7 7\n7 7\nR\nclosure\n0 1\n1 0\nend\n",
        Verdict::Accepted {
            points: 2,
            rank: 2,
            steps: 1,
        },
    ),
    (
        b"trace 2\npoints 2\nstage\n7 7\n7 7\nR\nR\nclosure\n0 1\n1 0\nend\n",
        Verdict::Refused {
            line: 7,
            what: CheckWord::IdleStep,
        },
    ),
    (
        b"trace 2\npoints 2\nstage\n0 1\n2 0\nR\nclosure\n0 2\n3 1\nend\n",
        Verdict::Accepted {
            points: 2,
            rank: 4,
            steps: 1,
        },
    ),
    (
        b"trace 2\npoints 2\nstage\n7 7\n7 7\nD 0\nclosure\n0 1\n1 0\nend\n",
        Verdict::Accepted {
            points: 2,
            rank: 2,
            steps: 1,
        },
    ),
    (
        b"trace 2\npoints 2\nstage\n7 7\n7 7\nD 0\nD 0\nclosure\n0 1\n1 0\nend\n",
        Verdict::Refused {
            line: 7,
            what: CheckWord::IdleStep,
        },
    ),
    (
        b"trace 2\npoints 2\nstage\n7 7\n7 7\nclosure\n0 1\n1 0\nend\n",
        Verdict::Refused {
            line: 6,
            what: CheckWord::NotCoherent,
        },
    ),
    (
        b"trace 2\npoints 2\nstage\n7 7\n7 7\nD 5\nclosure\n0 1\n1 0\nend\n",
        Verdict::Refused {
            line: 6,
            what: CheckWord::NoSuchClass,
        },
    ),
    (
        b"trace 2\npoints 2\nstage\n7 7\n7 7\nD 0\nclosure\n0 0\n0 0\nend\n",
        Verdict::Refused {
            line: 7,
            what: CheckWord::WrongClosure,
        },
    ),
    (
        b"trace 2\npoints 2\nstage\n0 1\n2 0\nT 0 1 2\nclosure\n0 2\n3 1\nend\n",
        Verdict::Accepted {
            points: 2,
            rank: 4,
            steps: 1,
        },
    ),
    (
        b"trace 2\npoints 2\nstage\n0 1\n2 0\nT 0 1 1\nclosure\n0 2\n3 1\nend\n",
        Verdict::Refused {
            line: 6,
            what: CheckWord::IdleStep,
        },
    ),
    (
        b"trace 1\npoints 2\nstage\n0 1\n1 0\nstage\n0 0\n0 0\nclosure\n0 1\n1 0\nend\n",
        Verdict::Refused {
            line: 6,
            what: CheckWord::StageNotRefining,
        },
    ),
];

// A store with the one file T.
fn store_of(alloc: Global, text: &[u8]) -> Result<MemoryStore, Fail> {
    let mut store = MemoryStore::new(alloc);
    store.add("T", text)?;
    Ok(store)
}

// What there is to say of the claim in the file T.
fn judged(alloc: Global, store: &mut MemoryStore) -> Result<Verdict, Fail> {
    match check_input(alloc, store, "T") {
        Ok(claim) => Ok(check(alloc, &claim)?),
        Err(_) => Err(Fail::new("no trace")),
    }
}

#[test]
fn claims_are_judged(rt: HostRuntime) -> Result<(), Fail> {
    for (text, verdict) in &CLAIMS {
        let found = judged(rt.alloc(), &mut store_of(rt.alloc(), text)?)?;
        assert_eq!(rt; found, *verdict);
    }
    Ok(())
}
