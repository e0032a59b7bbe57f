//! Claims that are judged: each is accepted, or the line of its first bad line is written.

use crate::runs::{CHECK, ends_over, wrote};
use crate::texts::with_returns;
use cohere_core::Status;
use std::alloc::Global;
use std::process::Abort;
use std::test::Fail;

/// One colour on two points, with a step that parts the diagonal.
pub(crate) const TRACE: &[u8] =
    b"trace 1\npoints 2\nstage\n7 7\n7 7\nD 0\nclosure\n0 1\n1 0\nend\n";

/// What is written for it.
pub(crate) const YES: &[u8] = b"accepted points 2 rank 2 steps 1\n";

// Traces of claims that are accepted: also without its last line end.
const ACCEPTED: [(&[u8], &[u8]); 6] = [
    (TRACE, YES),
    (
        b"trace 1\npoints 2\nstage\n7 7\n7 7\nD 0\nclosure\n0 1\n1 0\nend",
        YES,
    ),
    (
        b"trace 1\npoints 2\nstage\n0 1\n2 0\nT 0 1 2\nclosure\n0 2\n3 1\nend\n",
        b"accepted points 2 rank 4 steps 1\n",
    ),
    (
        b"trace 2\npoints 3\nstage\n0 1 2\n1 0 1\n2 1 0\nR\nclosure\n0 2 3\n4 1 4\n3 2 0\nend\n",
        b"accepted points 3 rank 5 steps 1\n",
    ),
    (
        b"trace 2\npoints 2\nstage\n7 7\n7 7\nR\nclosure\n0 1\n1 0\nend\n",
        YES,
    ),
    (
        b"trace 2\npoints 2\nstage\n7 7\n7 7\nD 0\nclosure\n0 1\n1 0\nend\n",
        YES,
    ),
];

// Traces of claims that are not.
const REFUSED: [(&[u8], &[u8]); 9] = [
    (
        b"trace 1\npoints 2\nstage\n7 7\n7 7\nD 0\nD 0\nclosure\n0 1\n1 0\nend\n",
        b"refused line 7 IdleStep\n",
    ),
    (
        b"trace 1\npoints 2\nstage\n7 7\n7 7\nclosure\n0 1\n1 0\nend\n",
        b"refused line 6 NotCoherent\n",
    ),
    (
        b"trace 1\npoints 2\nstage\n7 7\n7 7\nD 5\nclosure\n0 1\n1 0\nend\n",
        b"refused line 6 NoSuchClass\n",
    ),
    (
        b"trace 1\npoints 2\nstage\n7 7\n7 7\nF 0 7\nclosure\n0 1\n1 0\nend\n",
        b"refused line 6 NoSuchClass\n",
    ),
    (
        b"trace 1\npoints 2\nstage\n7 7\n7 7\nD 0\nclosure\n0 0\n0 0\nend\n",
        b"refused line 7 WrongClosure\n",
    ),
    (
        b"trace 1\npoints 2\nstage\n0 1\n1 0\nstage\n0 0\n0 0\nclosure\n0 1\n1 0\nend\n",
        b"refused line 6 StageNotRefining\n",
    ),
    (
        b"trace 1\npoints 2\nstage\n0 1\n2 0\nT 0 1 1\nclosure\n0 2\n3 1\nend\n",
        b"refused line 6 IdleStep\n",
    ),
    (
        b"trace 2\npoints 2\nstage\n7 7\n7 7\nR\nR\nclosure\n0 1\n1 0\nend\n",
        b"refused line 7 IdleStep\n",
    ),
    (
        b"trace 2\npoints 2\nstage\n7 7\n7 7\nclosure\n0 1\n1 0\nend\n",
        b"refused line 6 NotCoherent\n",
    ),
];

// The check of each trace has the status, and writes its line.
fn all_are_judged(
    rt: &impl Abort,
    alloc: Global,
    status: Status,
    rows: &[(&[u8], &[u8])],
) -> Result<(), Fail> {
    for (row, (trace, output)) in rows.iter().enumerate() {
        let files = [("T", *trace)];
        ends_over(rt, alloc, row, &CHECK, &files, wrote(status, output))?;
    }
    Ok(())
}

#[test]
fn claims_that_are_accepted(rt: HostRuntime) -> Result<(), Fail> {
    all_are_judged(&rt, rt.alloc(), Status::Done, &ACCEPTED)
}

#[test]
fn claims_that_are_refused(rt: HostRuntime) -> Result<(), Fail> {
    assert_eq!(rt; Status::CheckedNo.code(), 1);
    all_are_judged(&rt, rt.alloc(), Status::CheckedNo, &REFUSED)
}

#[test]
fn a_claim_with_returns(rt: HostRuntime) -> Result<(), Fail> {
    let trace = with_returns(rt.alloc(), TRACE)?;
    all_are_judged(&rt, rt.alloc(), Status::Done, &[(&trace, YES)])
}
