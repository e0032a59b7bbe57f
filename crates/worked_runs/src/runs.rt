//! Runs over files in memory, and how they end: the rows of tables, and the loops that run them.

use cohere_core::{Status, run};
use scheme_io::{MemorySink, MemoryStore};
use std::alloc::{AllocError, Global};
use std::process::Abort;
use std::test::Fail;
use visitors::{Keep, Packed, Visitor};

/// The name of a file, and its bytes.
pub(crate) type File<'a> = (&'a str, &'a [u8]);

/// Words, files and the text that is written, where all is answered.
pub(crate) type Answered<'a> = (&'a [&'a str], &'a [File<'a>], &'a [u8]);

/// Words, files, the status and the line that is said, where nothing is written.
pub(crate) type Told<'a> = (&'a [&'a str], &'a [File<'a>], Status, &'a [u8]);

/// A relation, a script and the text that is written, or the line that is said.
pub(crate) type Script<'a> = (&'a [u8], &'a [u8], &'a [u8]);

/// The line that is said where words fit no form.
pub(crate) const USAGE: &[u8] =
    b"usage: cohere run RELATION SCRIPT [LINE] | cohere check TRACE | cohere demo NUMBER | cohere ring TABLE COLOUR... | cohere cells RELATION COLOUR... | cohere check-cells TRACE | cohere table D NUMBER... | cohere lattice RELATION [I J]\n";

/// The words of a run over the files R and S.
pub(crate) const RUN: [&str; 3] = ["run", "R", "S"];

/// The words of a check of the file T.
pub(crate) const CHECK: [&str; 2] = ["check", "T"];

/// How a run ends.
#[derive(Clone, Copy)]
pub(crate) struct Ending<'a> {
    pub(crate) status: Status,
    pub(crate) output: &'a [u8],
    pub(crate) line: &'a [u8],
}

/// All is answered, and nothing is said.
pub(crate) fn done(output: &[u8]) -> Ending<'_> {
    wrote(Status::Done, output)
}

/// This was written, and nothing is said.
pub(crate) fn wrote(status: Status, output: &[u8]) -> Ending<'_> {
    Ending {
        status,
        output,
        line: b"",
    }
}

/// The line is said, and nothing is written.
pub(crate) fn told(status: Status, line: &[u8]) -> Ending<'_> {
    Ending {
        status,
        output: b"",
        line,
    }
}

/// The words, as a run takes them.
pub(crate) fn words_of(alloc: Global, words: &[&str]) -> Result<Vec<String>, AllocError> {
    let mut all = Vec::new(alloc);
    for word in words {
        all.push(String::from_str(alloc, word)?)?;
    }
    Ok(all)
}

/// What a run answers that is handed the visitor.
pub(crate) fn status_by(
    alloc: Global,
    words: &[&str],
    store: &mut MemoryStore,
    out: &mut MemorySink,
    err: &mut MemorySink,
    visitor: Box<dyn Visitor>,
) -> Result<Status, Fail> {
    let words = words_of(alloc, words)?;
    Ok(run(alloc, &words, store, out, err, visitor))
}

/// What a run answers whose visitor stores entries as they are.
pub(crate) fn status_of(
    alloc: Global,
    words: &[&str],
    store: &mut MemoryStore,
    out: &mut MemorySink,
    err: &mut MemorySink,
) -> Result<Status, Fail> {
    let keep: Box<dyn Visitor> = Box::new(alloc, Keep::new(alloc))?;
    status_by(alloc, words, store, out, err, keep)
}

/// The status of a row is the wanted one.
pub(crate) fn same_status(rt: &impl Abort, row: usize, status: Status, wanted: Status) {
    assert_eq!(rt; status, wanted, "row {row}");
}

/// A text of a row is the wanted one.
pub(crate) fn same_text(rt: &impl Abort, row: usize, text: &[u8], wanted: &[u8]) {
    assert_eq!(rt; text, wanted, "row {row}");
}

/// The store of these files.
pub(crate) fn store_of(alloc: Global, files: &[File<'_>]) -> Result<MemoryStore, Fail> {
    let mut store = MemoryStore::new(alloc);
    for (name, bytes) in files {
        store.add(name, bytes)?;
    }
    Ok(store)
}

/// The store of these files, whose call with this number fails.
pub(crate) fn failing_store(
    alloc: Global,
    files: &[File<'_>],
    call: u32,
) -> Result<MemoryStore, Fail> {
    let mut store = store_of(alloc, files)?;
    store.fail_at(call)?;
    Ok(store)
}

/// The store of the files R and S.
pub(crate) fn script_store(
    alloc: Global,
    relation: &[u8],
    script: &[u8],
) -> Result<MemoryStore, Fail> {
    store_of(alloc, &[("R", relation), ("S", script)])
}

/// A run that is handed the visitor ends so.
pub(crate) fn ends_by(
    rt: &impl Abort,
    alloc: Global,
    row: usize,
    words: &[&str],
    store: &mut MemoryStore,
    out: &mut MemorySink,
    ending: Ending<'_>,
    visitor: Box<dyn Visitor>,
) -> Result<(), Fail> {
    let mut err = MemorySink::new(alloc, 5, 1000)?;
    let status = status_by(alloc, words, store, out, &mut err, visitor)?;
    same_status(rt, row, status, ending.status);
    same_text(rt, row, out.written(), ending.output);
    same_text(rt, row, err.written(), ending.line);
    Ok(())
}

/// A run to this output ends so, whose visitor stores entries as they are.
pub(crate) fn ends_to(
    rt: &impl Abort,
    alloc: Global,
    row: usize,
    words: &[&str],
    store: &mut MemoryStore,
    out: &mut MemorySink,
    ending: Ending<'_>,
) -> Result<(), Fail> {
    let keep: Box<dyn Visitor> = Box::new(alloc, Keep::new(alloc))?;
    ends_by(rt, alloc, row, words, store, out, ending, keep)
}

/// A run ends so, whose visitor stores entries as they are. The output takes 7 bytes a call.
pub(crate) fn ends(
    rt: &impl Abort,
    alloc: Global,
    row: usize,
    words: &[&str],
    store: &mut MemoryStore,
    ending: Ending<'_>,
) -> Result<(), Fail> {
    let mut out = MemorySink::new(alloc, 7, 100_000)?;
    ends_to(rt, alloc, row, words, store, &mut out, ending)
}

// A run ends so, whose visitor packs entries. The output takes each piece whole.
fn ends_packing(
    rt: &impl Abort,
    alloc: Global,
    row: usize,
    words: &[&str],
    store: &mut MemoryStore,
    ending: Ending<'_>,
) -> Result<(), Fail> {
    let mut out = MemorySink::new(alloc, 100_000, 100_000)?;
    let packed: Box<dyn Visitor> = Box::new(alloc, Packed::new(alloc))?;
    ends_by(rt, alloc, row, words, store, &mut out, ending, packed)
}

/// A run ends so, whichever visitor is handed in.
pub(crate) fn ends_for_both(
    rt: &impl Abort,
    alloc: Global,
    row: usize,
    words: &[&str],
    store: &mut MemoryStore,
    ending: Ending<'_>,
) -> Result<(), Fail> {
    ends(rt, alloc, row, words, store, ending)?;
    ends_packing(rt, alloc, row, words, store, ending)
}

/// A run over these files ends so, whichever visitor is handed in.
pub(crate) fn ends_over(
    rt: &impl Abort,
    alloc: Global,
    row: usize,
    words: &[&str],
    files: &[File<'_>],
    ending: Ending<'_>,
) -> Result<(), Fail> {
    ends_for_both(rt, alloc, row, words, &mut store_of(alloc, files)?, ending)
}

/// A run of the script over the relation ends so, whichever visitor is handed in.
pub(crate) fn script_ends(
    rt: &impl Abort,
    alloc: Global,
    row: usize,
    relation: &[u8],
    script: &[u8],
    ending: Ending<'_>,
) -> Result<(), Fail> {
    let files = [("R", relation), ("S", script)];
    ends_over(rt, alloc, row, &RUN, &files, ending)
}

/// The run of each row is answered.
pub(crate) fn all_answer(
    rt: &impl Abort,
    alloc: Global,
    rows: &[Answered<'_>],
) -> Result<(), Fail> {
    for (row, (words, files, output)) in rows.iter().enumerate() {
        ends_over(rt, alloc, row, words, files, done(output))?;
    }
    Ok(())
}

/// The run of each row writes nothing, and says its line.
pub(crate) fn all_tell(rt: &impl Abort, alloc: Global, rows: &[Told<'_>]) -> Result<(), Fail> {
    for (row, (words, files, status, line)) in rows.iter().enumerate() {
        ends_over(rt, alloc, row, words, files, told(*status, line))?;
    }
    Ok(())
}

/// The script of each row is answered over its relation.
pub(crate) fn all_scripts_answer(
    rt: &impl Abort,
    alloc: Global,
    rows: &[Script<'_>],
) -> Result<(), Fail> {
    for (row, (relation, script, output)) in rows.iter().enumerate() {
        script_ends(rt, alloc, row, relation, script, done(output))?;
    }
    Ok(())
}

/// Of each row the relation or the script is bad.
pub(crate) fn all_scripts_are_bad(
    rt: &impl Abort,
    alloc: Global,
    rows: &[Script<'_>],
) -> Result<(), Fail> {
    for (row, (relation, script, line)) in rows.iter().enumerate() {
        script_ends(
            rt,
            alloc,
            row,
            relation,
            script,
            told(Status::BadInput, line),
        )?;
    }
    Ok(())
}
