//! The files by which the lines of a script multiply, and where their loading stops.

use crate::fixtures::same_bytes;
use cohere_inputs::{FileFault, RunInputs, RunWords, Unread, run_inputs};
use relation_text::RelationWord;
use scheme_io::{MemorySink, MemoryStore};
use script_text::ScriptWord;
use std::alloc::Global;
use std::process::Abort;
use std::test::Fail;

// Relations on two and on three points, the second before another one, a text that is no relation, and
// the script; a call of the store may fail.
fn files(alloc: Global, script: &[u8], failing: u32) -> Result<MemoryStore, Fail> {
    let mut store = MemoryStore::new(alloc);
    store.add("A", b"A_")?;
    store.add("B", b"Bw\n@\n")?;
    store.add("X", b"matrix x")?;
    store.add("S", script)?;
    store.fail_at(failing)?;
    Ok(store)
}

const HEAD: Unread = Unread::Bad(FileFault::Relation {
    what: RelationWord::MatrixHead,
    at: 0,
});

const MISSING: Unread = Unread::Bad(FileFault::Missing);

const UNKNOWN: Unread = Unread::Bad(FileFault::Script {
    line: 2,
    what: ScriptWord::UnknownWord,
});

// A script that is run on A, the call of the store that fails, the sizes of the products in the order
// of their lines, why loading stops, and the line that is said then. Calls are counted from 0: three
// load a short file, so that the first product is loaded from call 6 on.
type Row = (
    &'static [u8],
    u32,
    &'static [u32],
    Option<Unread>,
    &'static [u8],
);

const ROWS: [Row; 9] = [
    (b"show", 6, &[], None, b""),
    (
        b"direct A\nshow\n# X\nwreath B\ndirect A",
        15,
        &[2, 3, 2],
        None,
        b"",
    ),
    (
        b"direct A\nwreath X\ndirect N",
        99,
        &[],
        Some(HEAD),
        b"cohere: X: MatrixHead at 0\n",
    ),
    (
        b"wreath N\ndirect X",
        99,
        &[],
        Some(MISSING),
        b"cohere: cannot read N\n",
    ),
    (
        b"wreath X\ndirect N",
        99,
        &[],
        Some(HEAD),
        b"cohere: X: MatrixHead at 0\n",
    ),
    (
        b"direct A\nwreath B",
        9,
        &[],
        Some(Unread::StoreFailed),
        b"cohere: cannot read B\n",
    ),
    (
        b"direct A\nwreath A",
        10,
        &[],
        Some(Unread::StoreFailed),
        b"cohere: cannot read A\n",
    ),
    (b"show\n", 99, &[], None, b""),
    // A script with a fault is refused before a product is loaded.
    (
        b"direct N\nshwo\n",
        99,
        &[],
        Some(UNKNOWN),
        b"cohere: S: line 2 UnknownWord\n",
    ),
];

// The products have these sizes.
fn have_sizes(rt: &impl Abort, inputs: &RunInputs, sizes: &[u32]) {
    assert_eq!(rt; inputs.products.len(), sizes.len());
    for (product, size) in inputs.products.iter().zip(sizes) {
        assert_eq!(rt; product.size(), *size);
    }
}

// What is read of a store has products of these sizes, or loading stops, for this reason.
fn loads(
    rt: &impl Abort,
    alloc: Global,
    store: &mut MemoryStore,
    err: &mut MemorySink,
    sizes: &[u32],
) -> Option<Unread> {
    let words = RunWords {
        relation: "A",
        script: "S",
        line: 1,
    };
    match run_inputs(alloc, store, words, err) {
        Ok(inputs) => {
            have_sizes(rt, &inputs, sizes);
            None
        }
        Err(why) => Some(why),
    }
}

// A row of the table is as it says.
fn is_as_said(rt: &impl Abort, alloc: Global, row: &Row) -> Result<(), Fail> {
    let (script, failing, sizes, why, line) = row;
    let mut err = MemorySink::new(alloc, 5, 1000)?;
    let mut store = files(alloc, script, *failing)?;
    let stop = loads(rt, alloc, &mut store, &mut err, sizes);
    assert_eq!(rt; stop, *why);
    same_bytes(rt, err.written(), line);
    Ok(())
}

#[test]
fn products_come_in_the_order_of_the_lines(rt: HostRuntime) -> Result<(), Fail> {
    for row in &ROWS {
        is_as_said(&rt, rt.alloc(), row)?;
    }
    Ok(())
}
