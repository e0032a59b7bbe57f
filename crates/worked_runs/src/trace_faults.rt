//! Files that are no trace.

use crate::judged_traces::TRACE;
use crate::runs::{
    CHECK, File, Told, all_tell, ends_over, same_status, same_text, status_of, store_of, told,
};
use cohere_core::Status;
use scheme_io::MemorySink;
use std::alloc::Global;
use std::process::Abort;
use std::test::Fail;

const BAD: [(&[u8], &[u8]); 11] = [
    (
        b"trace 1\npoints 2\nstage\n7 7\n7 7\nD 0\nclosure\n0 1\n1 0\n",
        b"cohere: T: line 10 End\n",
    ),
    (
        b"trace 9\npoints 2\nstage\n7 7\n7 7\nD 0\nclosure\n0 1\n1 0\nend\n",
        b"cohere: T: line 1 Head\n",
    ),
    (
        b"trace 1\npoints 257\nstage\n7 7\n7 7\nD 0\nclosure\n0 1\n1 0\nend\n",
        b"cohere: T: line 2 Points\n",
    ),
    (
        b"trace 1\npoints 129\nstage\n7 7\n7 7\nD 0\nclosure\n0 1\n1 0\nend\n",
        b"cohere: T: line 4 Row\n",
    ),
    (
        b"trace 1\npoints 2\nstage\n7 7 7\n7 7\nD 0\nclosure\n0 1\n1 0\nend\n",
        b"cohere: T: line 4 Row\n",
    ),
    (
        b"trace 1\npoints 2\nstage\n7 7\n07 7\nD 0\nclosure\n0 1\n1 0\nend\n",
        b"cohere: T: line 5 Row\n",
    ),
    (
        b"trace 1\npoints 2\nstage\n7 7\n7 7\nT 0 0 65536\nclosure\n0 1\n1 0\nend\n",
        b"cohere: T: line 6 Body\n",
    ),
    (
        b"trace 1\npoints 2\nstage\n7 7\n7 7\nR\nclosure\n0 1\n1 0\nend\n",
        b"cohere: T: line 6 Body\n",
    ),
    (
        b"trace 2\npoints 2\nstage\n7 7\n7 7\nR 0\nclosure\n0 1\n1 0\nend\n",
        b"cohere: T: line 6 Body\n",
    ),
    (
        b"trace 1\npoints 2\nstage\n7 7\n7 7\nD 0\nstage\n0 1\n1 0\nend\n",
        b"cohere: T: line 10 Body\n",
    ),
    (
        b"trace 1\npoints 2\nstage\n7 7\n7 7\nD 0\nclosure\n0 1\n1 0\nend\nend\n",
        b"cohere: T: line 11 Extra\n",
    ),
];

#[test]
fn files_that_are_no_trace(rt: HostRuntime) -> Result<(), Fail> {
    for (row, (trace, line)) in BAD.iter().enumerate() {
        let files = [("T", *trace)];
        let bad = told(Status::BadInput, line);
        ends_over(&rt, rt.alloc(), row, &CHECK, &files, bad)?;
    }
    Ok(())
}

// The file T is no trace: nothing is answered, and a line is named. The row is the number of bytes.
fn names_a_line(rt: &impl Abort, alloc: Global, trace: &[u8]) -> Result<(), Fail> {
    let mut store = store_of(alloc, &[("T", trace)])?;
    let mut out = MemorySink::new(alloc, 7, 1000)?;
    let mut err = MemorySink::new(alloc, 5, 1000)?;
    let status = status_of(alloc, &CHECK, &mut store, &mut out, &mut err)?;
    let row = trace.len();
    same_status(rt, row, status, Status::BadInput);
    same_text(rt, row, out.written(), b"");
    let named = err.written().starts_with(b"cohere: T: line ");
    assert_eq!(rt; named, true, "row {row}");
    Ok(())
}

// Every front of a trace but the one that lacks only the last line end.
#[test]
fn fronts_of_a_trace(rt: HostRuntime) -> Result<(), Fail> {
    for size in 0..54 {
        names_a_line(&rt, rt.alloc(), &TRACE[..size])?;
    }
    Ok(())
}

#[test]
fn a_trace_that_is_not_there(rt: HostRuntime) -> Result<(), Fail> {
    let line = b"cohere: cannot read M\n";
    let files: [File<'_>; 1] = [("T", TRACE)];
    let row: Told<'_> = (&["check", "M"], &files, Status::StoreFailed, line);
    all_tell(&rt, rt.alloc(), &[row])
}
