//! The two adapters of the machine: its files, and a writer. Stores and sinks in memory are run by
//! whole runs of the program.

use crate::fixtures::same_bytes;
use scheme_io::{HostSink, HostStore, LoadFault, SinkFault, Store, load, put_all};
use std::alloc::{AllocError, Global};
use std::fs;
use std::io::Cursor;
use std::process::Abort;
use std::test::Fail;

// Bytes no two of which are alike that stand a read apart.
fn long_bytes(alloc: Global) -> Result<Vec<u8>, AllocError> {
    let mut long = Vec::new(alloc);
    for i in 0..140_000u32 {
        long.push((i % 251) as u8)?;
    }
    Ok(long)
}

// Files, a limit, and the answer where a file is not loaded. A folder can be opened and not read.
const LOADS: [(&str, u32, Option<LoadFault>); 7] = [
    ("long.txt", 140_000, None),
    ("short.txt", 10, None),
    ("_", 100, None),
    ("short.txt", 9, Some(LoadFault::TooLong { taken: 10 })),
    (
        "long.txt",
        66_000,
        Some(LoadFault::TooLong { taken: 66_001 }),
    ),
    (".", 100, Some(LoadFault::Failed)),
    ("none.txt", 100, Some(LoadFault::Failed)),
];

// The file is not loaded for this reason, or its bytes are the wanted ones.
fn loads(
    rt: &impl Abort,
    alloc: Global,
    store: &mut impl Store,
    name: &str,
    limit: u32,
    fault: Option<LoadFault>,
    wanted: &[u8],
) {
    assert!(rt; limit <= 268_435_456);
    match load(alloc, store, name, limit) {
        Ok(bytes) => {
            assert_eq!(rt; fault, None);
            same_bytes(rt, &bytes, wanted);
        }
        Err(found) => assert_eq!(rt; Some(found), fault),
    }
}

#[test]
fn a_host_store_loads(rt: HostRuntime) -> Result<(), Fail> {
    let long = long_bytes(rt.alloc())?;
    fs::write(&rt, "long.txt", &long)?;
    fs::write(&rt, "short.txt", "some bytes")?;
    fs::write(&rt, "_", "no input")?;
    let mut store = HostStore::new(&rt);
    for (name, limit, fault) in &LOADS {
        let wanted: &[u8] = match *name {
            "long.txt" => &long,
            "_" => b"no input",
            _ => b"some bytes",
        };
        loads(&rt, rt.alloc(), &mut store, name, *limit, *fault, wanted);
    }
    // After a failed start no file is current.
    assert_eq!(rt; store.read(&mut [0u8; 4]).ok(), Some(0));
    Ok(())
}

#[test]
fn a_host_sink_writes(rt: HostRuntime) -> Result<(), Fail> {
    let mut sink = HostSink::new(Vec::new(rt.alloc()));
    put_all(&mut sink, b"some ")?;
    put_all(&mut sink, b"")?;
    put_all(&mut sink, b"bytes")?;
    let bytes = sink.into_writer();
    same_bytes(&rt, &bytes, b"some bytes");
    Ok(())
}

// A writer that takes four bytes, and then none.
#[test]
fn a_full_writer_refuses(rt: HostRuntime) {
    let mut full = HostSink::new(Cursor::new([0u8; 4]));
    assert_eq!(rt; put_all(&mut full, b"bytes").err(), Some(SinkFault));
    assert_eq!(rt; put_all(&mut full, b"").ok(), Some(()));
}
