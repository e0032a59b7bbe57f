//! Lattices with as many fusions as they may have, or nearly so, and with more.

use crate::asking::{Question, all_questions_answer};
use crate::runs::{File, same_status, status_of, store_of};
use cohere_core::Status;
use scheme_io::MemorySink;
use std::alloc::Global;
use std::process::Abort;
use std::test::Fail;

// Three graphs on 16 points, the last one directed. The closure of the first has rank 12 and 300
// fusions. That of the second is the thin scheme of the dihedral group of order 16, which has 247.
// That of the third has rank 12 and 322 fusions.
const GRAPHS: [File<'static>; 3] = [
    ("Full", b"Oq`CaOOJ?a?QHWAa?d`@I\n"),
    ("Dihedral", b"OqPCcOCB?FCEGWEBA_PC`\n"),
    ("Past", b"&OWoA[?GOH?wP@PE@AEBAGI@OPB@`A@aIAG[AOGO?x?KW\n"),
];

// Of the places that are neither 0 nor the last one, the common refinements are no fusions.
const FULL: [Question<'static>; 3] = [
    ("lattice Full 299 0", b"common 299 0 299\n"),
    ("lattice Full 12 3", b"common 12 3 93\n"),
    ("lattice Full 0 300", b"refused PlaceRange\n"),
];

#[test]
fn as_many_fusions_as_may_be(rt: HostRuntime) -> Result<(), Fail> {
    all_questions_answer(&rt, rt.alloc(), &GRAPHS, &FULL)
}

const DIHEDRAL: [Question<'static>; 3] = [
    ("lattice Dihedral 0 246", b"common 0 246 246\n"),
    ("lattice Dihedral 137 5", b"common 137 5 239\n"),
    ("lattice Dihedral 247 0", b"refused PlaceRange\n"),
];

#[test]
fn fusions_of_a_dihedral_group(rt: HostRuntime) -> Result<(), Fail> {
    all_questions_answer(&rt, rt.alloc(), &GRAPHS, &DIHEDRAL)
}

// Too many are told before places that no fusion has.
const PAST: [Question<'static>; 2] = [
    ("lattice Past", b"refused TooManyFusions\n"),
    ("lattice Past 0 322", b"refused TooManyFusions\n"),
];

#[test]
fn more_fusions_than_may_be(rt: HostRuntime) -> Result<(), Fail> {
    all_questions_answer(&rt, rt.alloc(), &GRAPHS, &PAST)
}

// The lattice of that graph is written: it begins with this line, and has so many lines.
fn has_lattice(
    rt: &impl Abort,
    alloc: Global,
    row: usize,
    name: &str,
    front: &[u8],
    lines: usize,
) -> Result<(), Fail> {
    let mut store = store_of(alloc, &GRAPHS)?;
    let mut out = MemorySink::new(alloc, 1000, 100_000)?;
    let mut err = MemorySink::new(alloc, 5, 1000)?;
    let status = status_of(alloc, &["lattice", name], &mut store, &mut out, &mut err)?;
    same_status(rt, row, status, Status::Done);
    is_text_of(rt, row, out.written(), front, lines);
    Ok(())
}

// The text begins with this line, and has so many lines.
fn is_text_of(rt: &impl Abort, row: usize, text: &[u8], front: &[u8], lines: usize) {
    assert!(rt; text.starts_with(front), "row {row}");
    let ends = text.iter().filter(|byte| **byte == b'\n').count();
    assert_eq!(rt; ends, lines, "row {row}");
}

// Each fusion and each cover has a line, between the first and the last.
#[test]
fn lattices_of_many_fusions(rt: HostRuntime) -> Result<(), Fail> {
    let full = b"lattice fusions 300 covers 910\n";
    has_lattice(&rt, rt.alloc(), 0, "Full", full, 1212)?;
    let dihedral = b"lattice fusions 247 covers 635\n";
    has_lattice(&rt, rt.alloc(), 1, "Dihedral", dihedral, 884)
}
