//! Scripts that multiply by the relations of files, and one that merges.

use crate::runs::{Ending, File, RUN, done, ends_for_both, script_store, told};
use crate::texts::repeated;
use cohere_core::Status;
use scheme_io::MemoryStore;
use std::alloc::Global;
use std::process::Abort;
use std::test::Fail;

const CUBE: &[u8] = b"Gr`HOk\n";

const EDGE: &[u8] = b"A_\n";

const PATH: &[u8] = b"DQc\n";

// Files by which a script may multiply: an edge, a point, the cube, and one that is no relation.
// There is no file M.
const FILES: [File<'static>; 4] = [("F", EDGE), ("P", b"@\n"), ("C", CUBE), ("B", b"DQd\n")];

// Relation, script, status, answers, and the line that is said.
type Row<'a> = (&'a [u8], &'a [u8], Status, &'a [u8], &'a [u8]);

const ROWS: [Row<'static>; 10] = [
    (
        EDGE,
        b"direct F\nshow\nmergings 9\ntrace\n",
        Status::Done,
        b"ok points 4 rank 4
show points 4 rank 4
0 1 2 3
1 0 3 2
2 3 0 1
3 2 1 0
mergings
0 1 1 1
0 1 1 2
0 1 2 1
0 1 2 2
0 1 2 3
end
trace 1
points 4
stage
0 1 2 3
1 0 3 2
2 3 0 1
3 2 1 0
closure
0 1 2 3
1 0 3 2
2 3 0 1
3 2 1 0
end
",
        b"",
    ),
    (
        EDGE,
        b"wreath F\nshow\n",
        Status::Done,
        b"ok points 4 rank 3
show points 4 rank 3
0 1 2 1
1 0 1 2
2 1 0 1
1 2 1 0
",
        b"",
    ),
    // The first file is taken by the first line, though the second line is undone.
    (
        EDGE,
        b"direct P\ndirect F\nundo\nwreath C\n",
        Status::Done,
        b"ok points 2 rank 2\nok points 4 rank 4\nok points 2 rank 2\nok points 16 rank 5\n",
        b"",
    ),
    (
        CUBE,
        b"direct C\nmergings 1\ndirect C\nwreath C\n",
        Status::Done,
        b"ok points 64 rank 16
mergings
0 1 1 1 1 1 1 1 1 1 1 1 1 1 1 1
next after 0 1 1 1 1 1 1 1 1 1 1 1 1 1 1 1
refused TooManyPoints
refused TooManyPoints
",
        b"",
    ),
    (
        EDGE,
        b"direct F\ndirect F\ndirect F\ndirect F\ndirect F\ndirect F\ndirect F\ndirect F\n",
        Status::Done,
        b"ok points 4 rank 4
ok points 8 rank 8
ok points 16 rank 16
ok points 32 rank 32
ok points 64 rank 64
ok points 128 rank 128
ok points 256 rank 256
refused TooManyPoints
",
        b"",
    ),
    (
        PATH,
        b"wreath F\ntests\n",
        Status::Done,
        b"refused NotHomogeneous
tests homogeneous no symmetric no commutative no thin no primitive no
",
        b"",
    ),
    (
        EDGE,
        b"show\ndirect F\ndirect B\n",
        Status::BadInput,
        b"",
        b"cohere: B: PadBits at 2\n",
    ),
    (
        EDGE,
        b"direct M\n",
        Status::StoreFailed,
        b"",
        b"cohere: cannot read M\n",
    ),
    (
        EDGE,
        b"wreath M\ndirect B\n",
        Status::StoreFailed,
        b"",
        b"cohere: cannot read M\n",
    ),
    (
        CUBE,
        b"fuse 0 1 1 2\nraw\nfuse 0 2 1\n",
        Status::Done,
        b"ok points 8 rank 3
raw points 8 colours 3
0 1 1 1 1 1 1 2
1 0 1 1 1 1 2 1
1 1 0 1 1 2 1 1
1 1 1 0 2 1 1 1
1 1 1 2 0 1 1 1
1 1 2 1 1 0 1 1
1 2 1 1 1 1 0 1
2 1 1 1 1 1 1 0
refused NotGrowth
",
        b"",
    ),
];

// The files, with the relation R and the script S.
fn store_with(alloc: Global, relation: &[u8], script: &[u8]) -> Result<MemoryStore, Fail> {
    let mut store = script_store(alloc, relation, script)?;
    for (name, text) in FILES {
        store.add(name, text)?;
    }
    Ok(store)
}

// The run of each row ends so, whichever visitor is handed in.
fn all_end(rt: &impl Abort, alloc: Global, rows: &[Row<'_>]) -> Result<(), Fail> {
    for (row, (relation, script, status, output, line)) in rows.iter().enumerate() {
        let mut store = store_with(alloc, relation, script)?;
        let ending = Ending {
            status: *status,
            output,
            line,
        };
        ends_for_both(rt, alloc, row, &RUN, &mut store, ending)?;
    }
    Ok(())
}

#[test]
fn scripts_with_products(rt: HostRuntime) -> Result<(), Fail> {
    all_end(&rt, rt.alloc(), &ROWS)
}

// The run with so many lines that multiply by a point ends so.
fn by_points(rt: &impl Abort, alloc: Global, times: u32, ending: Ending<'_>) -> Result<(), Fail> {
    let script = repeated(alloc, b"", b"direct P\n", times, b"")?;
    let mut store = store_with(alloc, EDGE, &script)?;
    ends_for_both(rt, alloc, times as usize, &RUN, &mut store, ending)
}

// As many product lines as there may be, and one more.
#[test]
fn limits_of_product_lines(rt: HostRuntime) -> Result<(), Fail> {
    let answers = repeated(rt.alloc(), b"", b"ok points 2 rank 2\n", 64, b"")?;
    by_points(&rt, rt.alloc(), 64, done(&answers))?;
    let line = b"cohere: S: line 65 TooManyProducts\n";
    by_points(&rt, rt.alloc(), 65, told(Status::BadInput, line))
}
