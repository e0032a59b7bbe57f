//! Histories of small colourings under edits: the ranks of the closures, the stages of the chains,
//! and what is refused.

use crate::fixtures::{PENTAGON, has_first_row, read, same_numbers};
use crate::product_edits::{Kind, refuses_many_points};
use pair_colours::NoMemory;
use recolour_bench::{Bench, Edit, EditFault};
use std::process::Abort;
use std::test::Fail;

// What is asked of a history.
#[derive(Clone, Copy)]
enum Call {
    Set(u32, u32, u32),
    Both(u32, u32, u32),
    Fix(u32),
    Join(u32, u32),
    Adopt,
    Fuse(&'static [u32]),
    Undo,
    Redo,
}

// Does what is asked.
fn done(bench: &mut Bench, call: Call) -> Result<(), EditFault> {
    match call {
        Call::Set(x, y, colour) => bench.edit(&Edit::Set { x, y, colour }),
        Call::Both(x, y, colour) => bench.edit(&Edit::Both { x, y, colour }),
        Call::Fix(x) => bench.edit(&Edit::Fix { x }),
        Call::Join(keep, gone) => bench.edit(&Edit::Join { keep, gone }),
        Call::Adopt => bench.edit(&Edit::Adopt),
        Call::Fuse(string) => bench.edit(&Edit::Fuse { string }),
        Call::Undo => bench.undo(),
        Call::Redo => bench.redo(),
    }
}

/// The closure of the present colouring has this rank, and the chain that shows it so many stages.
pub(crate) fn stands(
    rt: &(impl Abort + AllocGlobal),
    bench: &Bench,
    rank: u32,
    stages: usize,
) -> Result<(), NoMemory> {
    let found = (bench.closure().rank(rt.alloc())?, bench.chain().len());
    assert_eq!(rt; found, (rank, stages));
    Ok(())
}

// A call, the rank of the closure and the stages of the chain after it, and the word of a refusal,
// after which both are what they were.
type Row = (Call, u32, usize, Option<&'static str>);

// Goes through the rows.
fn goes_through(
    rt: &(impl Abort + AllocGlobal),
    bench: &mut Bench,
    rows: &[Row],
) -> Result<(), NoMemory> {
    for (call, rank, stages, word) in rows {
        let fault = done(bench, *call).err();
        assert_eq!(rt; fault.map(EditFault::as_str), *word);
        stands(rt, bench, *rank, *stages)?;
    }
    Ok(())
}

/// A history that begins with the colouring of this matrix.
pub(crate) fn bench_of(rt: &(impl Abort + AllocGlobal), matrix: &[u8]) -> Result<Bench, Fail> {
    Ok(Bench::new(rt.alloc(), read(rt, matrix, 1)?)?)
}

// A point of the pentagon is fixed, which leaves the turn round it.
const FIXED: [Row; 4] = [
    (Call::Fix(0), 13, 2, None),
    (Call::Undo, 3, 1, None),
    (Call::Redo, 13, 2, None),
    (Call::Redo, 13, 2, Some("NothingToRedo")),
];

// The colours and the classes of the pairs from the fixed point.
fn is_fixed(rt: &impl Abort, bench: &Bench) {
    has_first_row(rt, bench.present(), &[3, 1, 2, 2, 1]);
    has_first_row(rt, bench.closure(), &[0, 3, 4, 4, 3]);
}

#[test]
fn a_fixed_point_of_the_pentagon(rt: HostRuntime) -> Result<(), Fail> {
    let mut bench = bench_of(&rt, PENTAGON)?;
    stands(&rt, &bench, 3, 1)?;
    goes_through(&rt, &mut bench, &FIXED)?;
    is_fixed(&rt, &bench);
    Ok(())
}

// Each refusal of an edit stands beside an edit that is accepted. A stage is begun where the colouring
// refines the one before, and else a chain.
const EDITED: [Row; 13] = [
    (Call::Both(0, 1, 9), 13, 2, None),
    (Call::Both(0, 5, 1), 13, 2, Some("PointRange")),
    (Call::Join(9, 1), 3, 1, None),
    (Call::Join(9, 1), 3, 1, Some("ColourAbsent")),
    (Call::Join(1, 70_000), 3, 1, Some("ColourAbsent")),
    (Call::Join(9, 1_048_576), 3, 1, Some("ColourRange")),
    (Call::Join(9, 9), 3, 2, None),
    (Call::Set(0, 1, 8), 25, 3, None),
    (Call::Set(5, 0, 70_000), 25, 3, Some("PointRange")),
    (Call::Set(4, 0, 1_048_576), 25, 3, Some("ColourRange")),
    (Call::Set(4, 0, 1_048_575), 25, 4, None),
    (Call::Fix(5), 25, 4, Some("PointRange")),
    (Call::Fix(4), 25, 5, None),
];

#[test]
fn edits_of_the_pentagon(rt: HostRuntime) -> Result<(), Fail> {
    let mut bench = bench_of(&rt, PENTAGON)?;
    goes_through(&rt, &mut bench, &EDITED)?;
    Ok(())
}

/// Two points of which all pairs have the colour 7.
pub(crate) const TWO_POINTS: &[u8] = b"matrix 2\n7 7\n7 7\n";

const ENDS: [Row; 2] = [
    (Call::Undo, 2, 1, Some("NothingToUndo")),
    (Call::Redo, 2, 1, Some("NothingToRedo")),
];

// A full history refuses each edit that nothing else refuses.
const FULL: [Row; 5] = [
    (Call::Adopt, 2, 257, Some("HistoryFull")),
    (Call::Fix(1), 2, 257, Some("HistoryFull")),
    (Call::Fix(2), 2, 257, Some("PointRange")),
    (Call::Fuse(&[0, 1]), 2, 257, Some("HistoryFull")),
    (Call::Fuse(&[0, 2]), 2, 257, Some("NotGrowth")),
];

// After one step back there is room for one edit.
const ONE_BACK: [Row; 3] = [
    (Call::Undo, 2, 256, None),
    (Call::Fix(1), 4, 257, None),
    (Call::Adopt, 4, 257, Some("HistoryFull")),
];

// Takes the closure of two points until the history is full; each time a stage without steps comes to
// the chain.
fn fill(rt: &(impl Abort + AllocGlobal), bench: &mut Bench) -> Result<(), NoMemory> {
    for stages in 2..258 {
        let adopted = bench.edit(&Edit::Adopt);
        assert_eq!(rt; adopted, Ok(()));
        stands(rt, bench, 2, stages)?;
    }
    Ok(())
}

// A full history stays as it is: at its last position, with no step in its later stages.
fn is_full(rt: &(impl Abort + AllocGlobal), bench: &Bench) -> Result<(), NoMemory> {
    assert_eq!(rt; (bench.position(), bench.last_position()), (256, 256));
    assert_eq!(rt; bench.present().rank(rt.alloc())?, 2);
    for stage in bench.chain().iter().skip(1) {
        assert_eq!(rt; stage.steps.len(), 0);
    }
    Ok(())
}

#[test]
fn a_full_history(rt: HostRuntime) -> Result<(), Fail> {
    let mut bench = bench_of(&rt, TWO_POINTS)?;
    goes_through(&rt, &mut bench, &ENDS)?;
    fill(&rt, &mut bench)?;
    goes_through(&rt, &mut bench, &FULL)?;
    refuses_many_points(&rt, rt.alloc(), &mut bench, Kind::Direct, 129)?;
    is_full(&rt, &bench)?;
    goes_through(&rt, &mut bench, &ONE_BACK)?;
    Ok(())
}

/// The 3-cube by its edges, which its closure refines to all distances.
pub(crate) const CUBE_GRAPH: &[u8] =
    b"matrix 8\n0 1 1 2 1 2 2 2\n1 0 2 1 2 1 2 2\n1 2 0 1 2 2 1 2\n2 1 1 0 2 2 2 1\n\
    1 2 2 2 0 1 1 2\n2 1 2 2 1 0 2 1\n2 2 1 2 1 2 0 1\n2 2 2 1 2 1 1 0\n";

const FUSED: [Row; 7] = [
    (Call::Fuse(&[0, 2, 1, 1]), 4, 1, Some("NotGrowth")),
    (Call::Fuse(&[0, 1, 2]), 4, 1, Some("NotGrowth")),
    (Call::Fuse(&[0, 1, 2, 2, 2]), 4, 1, Some("NotGrowth")),
    (Call::Fuse(&[0, 1, 1, 2]), 3, 1, None),
    (Call::Fuse(&[0, 2, 1]), 3, 1, Some("NotGrowth")),
    (Call::Fuse(&[0, 1, 1]), 2, 1, None),
    (Call::Undo, 3, 1, None),
];

// The fusion of the cube in which only the antipodal pairs have a class of their own.
const ANTIPODAL: [u32; 64] = [
    0, 1, 1, 1, 1, 1, 1, 2, 1, 0, 1, 1, 1, 1, 2, 1, 1, 1, 0, 1, 1, 2, 1, 1, 1, 1, 1, 0, 2, 1, 1, 1,
    1, 1, 1, 2, 0, 1, 1, 1, 1, 1, 2, 1, 1, 0, 1, 1, 1, 2, 1, 1, 1, 1, 0, 1, 2, 1, 1, 1, 1, 1, 1, 0,
];

#[test]
fn fusions_of_the_cube(rt: HostRuntime) -> Result<(), Fail> {
    let mut bench = bench_of(&rt, CUBE_GRAPH)?;
    goes_through(&rt, &mut bench, &FUSED)?;
    same_numbers(&rt, bench.present().colours(), &ANTIPODAL);
    Ok(())
}

// The fusion that leaves the edges alone refines their graph.
#[test]
fn a_fusion_that_refines(rt: HostRuntime) -> Result<(), Fail> {
    let mut bench = bench_of(&rt, CUBE_GRAPH)?;
    goes_through(&rt, &mut bench, &[(Call::Fuse(&[0, 1, 2, 2]), 4, 2, None)])?;
    Ok(())
}
