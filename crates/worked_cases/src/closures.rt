//! Closures that can be worked out by hand, and their steps made again; rounds and single steps.

use crate::fixtures::{PATH, PENTAGON, has_first_row, read, same_numbers};
use pair_colours::{Colouring, NoMemory};
use split_cells::Cells;
use std::alloc::Global;
use std::process::Abort;
use std::test::Fail;
use trace_text::{Chain, Stage, Step, Steps};
use wl_refine::{Closed, close, close_from, rounds};
use wl_round::round_of;

// The cells of the naming of a colouring.
fn cells_of(alloc: Global, raw: &Colouring) -> Result<Cells, NoMemory> {
    let _size = raw.size();
    let named = raw.named(alloc)?;
    Cells::of(alloc, &named)
}

// Whether the step is on one class, and splits it.
fn splits(cells: &mut Cells, step: Step) -> bool {
    match step {
        Step::Round => false,
        one_class => {
            let named = cells.names(one_class);
            named && cells.split(one_class)
        }
    }
}

// Whether the steps split one class after the other.
fn all_split(cells: &mut Cells, steps: &Steps) -> bool {
    for i in 0..steps.len() {
        let split = splits(cells, steps.at(i));
        if !split {
            return false;
        }
    }
    true
}

// The steps lead from these cells to a coherent partition, the last one.
fn lead(
    rt: &(impl Abort + AllocGlobal),
    cells: &mut Cells,
    steps: &Steps,
    last: &Colouring,
) -> Result<(), Fail> {
    let split = all_split(cells, steps);
    assert!(rt; split);
    let fault = cells.first_fault(rt.alloc())?;
    assert_eq!(rt; fault, None);
    let end = cells.colouring(rt.alloc())?;
    same_numbers(rt, end.colours(), last.colours());
    Ok(())
}

// The steps lead from the naming of this colouring to the last partition.
fn is_replayed(
    rt: &(impl Abort + AllocGlobal),
    raw: &Colouring,
    closed: &Closed,
) -> Result<(), Fail> {
    let mut cells = cells_of(rt.alloc(), raw)?;
    lead(rt, &mut cells, &closed.steps, &closed.last)
}

// The cycle on five points with point 0 fixed.
const FIXED: &[u8] = b"matrix 5\n3 1 2 2 1\n1 0 1 2 2\n2 1 0 1 2\n2 2 1 0 1\n1 2 2 1 0\n";

// Colourings, the ranks of their closures, and the classes of the pairs from point 0. The distances of
// the cycle are coherent; the reflection of the path, and the turn round the point that is fixed, leave
// 13 orbits of pairs.
const CLOSURES: [(&[u8], u32, &[u32]); 3] = [
    (PENTAGON, 3, &[0, 1, 2, 2, 1]),
    (PATH, 13, &[0, 3, 4, 5, 6]),
    (FIXED, 13, &[0, 3, 4, 4, 3]),
];

// The closure has this rank, and these classes of the pairs from point 0.
fn has_classes(
    rt: &(impl Abort + AllocGlobal),
    closure: &Colouring,
    rank: u32,
    row: &[u32],
) -> Result<(), Fail> {
    assert_eq!(rt; closure.rank(rt.alloc())?, rank);
    has_first_row(rt, closure, row);
    Ok(())
}

// The colouring is closed so, from its own naming.
fn closes(
    rt: &(impl Abort + AllocGlobal),
    raw: &Colouring,
    rank: u32,
    row: &[u32],
) -> Result<(), Fail> {
    let closed = close(rt.alloc(), raw)?;
    has_classes(rt, &closed.matrix, rank, row)?;
    // A coherent colouring is closed by no step.
    let coherent = raw.rank(rt.alloc())? == rank;
    assert_eq!(rt; closed.steps.len() == 0, coherent);
    is_replayed(rt, raw, &closed)
}

#[test]
fn colourings_are_closed(rt: HostRuntime) -> Result<(), Fail> {
    for (matrix, rank, row) in &CLOSURES {
        closes(&rt, &read(&rt, matrix, 1)?, *rank, row)?;
    }
    Ok(())
}

// The closure from the meet with a coarser colouring.
fn closed_from(alloc: Global, raw: &Colouring, coarser: &Colouring) -> Result<Closed, Fail> {
    let refining = raw.refines(alloc, coarser)?;
    if !refining {
        return Err(Fail::new("not coarser"));
    }
    Ok(close_from(alloc, raw, coarser)?)
}

// The colouring is closed so, from its meet with one colour for all pairs.
fn closes_from_one(
    rt: &(impl Abort + AllocGlobal),
    raw: &Colouring,
    rank: u32,
    row: &[u32],
) -> Result<(), Fail> {
    let one_colour = Colouring::new(rt.alloc(), raw.size(), 0)?;
    let closed = closed_from(rt.alloc(), raw, &one_colour)?;
    has_classes(rt, &closed.matrix, rank, row)?;
    is_replayed(rt, raw, &closed)
}

#[test]
fn colourings_are_closed_from_coarser_ones(rt: HostRuntime) -> Result<(), Fail> {
    for (matrix, rank, row) in &CLOSURES {
        closes_from_one(&rt, &read(&rt, matrix, 1)?, *rank, row)?;
    }
    Ok(())
}

// The rounds of one stage of these colours.
fn rounds_of(alloc: Global, colours: Colouring) -> Result<Chain, NoMemory> {
    let mut chain = Chain::new(alloc);
    chain.push(Stage {
        colours,
        steps: Steps::new(alloc),
    })?;
    rounds(alloc, chain.as_slice())
}

// The steps are rounds from these cells to a coherent partition, none of them idle.
fn are_rounds(
    rt: &(impl Abort + AllocGlobal),
    cells: &mut Cells,
    steps: &Steps,
) -> Result<(), Fail> {
    for i in 0..steps.len() {
        let split = cells.round(rt.alloc())?;
        assert_eq!(rt; (split, steps.at(i)), (true, Step::Round));
    }
    let fault = cells.first_fault(rt.alloc())?;
    assert_eq!(rt; fault, None);
    Ok(())
}

// The first round tells the ends of the path from the other points, and the second its middle.
#[test]
fn a_path_in_rounds(rt: HostRuntime) -> Result<(), Fail> {
    let chain = rounds_of(rt.alloc(), read(&rt, PATH, 1)?)?;
    assert_eq!(rt; chain.as_slice().len(), 1);
    for stage in chain.as_slice() {
        assert_eq!(rt; stage.steps.len(), 2);
        are_rounds(
            &rt,
            &mut cells_of(rt.alloc(), &stage.colours)?,
            &stage.steps,
        )?;
    }
    Ok(())
}

// Colourings, and one round of their namings: of the path 0, 1, 2, 3, where the orbits of its
// reflection are left, and of the one edge from 0 to 1 beside a third point, where the pairs (1, 2)
// and (2, 0) are still alike.
const ROUNDS: [(&[u8], &[u32]); 2] = [
    (
        b"matrix 4\n0 1 2 2\n1 0 1 2\n2 1 0 1\n2 2 1 0\n",
        &[0, 2, 3, 4, 5, 1, 6, 7, 7, 6, 1, 5, 4, 3, 2, 0],
    ),
    (
        b"matrix 3\n0 1 2\n2 0 2\n2 2 0\n",
        &[0, 3, 4, 5, 1, 6, 6, 7, 2],
    ),
];

// One round of the naming of a colouring has these classes.
fn has_round(
    rt: &(impl Abort + AllocGlobal),
    raw: &Colouring,
    colours: &[u32],
) -> Result<(), Fail> {
    let named = raw.named(rt.alloc())?;
    let pairs = named.colours().len();
    assert!(rt;
        named
            .colours()
            .iter()
            .all(|colour| (*colour as usize) < pairs)
    );
    let round = round_of(rt.alloc(), &named)?;
    same_numbers(rt, round.colours(), colours);
    Ok(())
}

#[test]
fn one_round(rt: HostRuntime) -> Result<(), Fail> {
    for (matrix, colours) in &ROUNDS {
        has_round(&rt, &read(&rt, matrix, 1)?, colours)?;
    }
    Ok(())
}

// Steps on the classes of three points, and whether they split: first one class is there, then the
// diagonal and the other pairs, which nothing parts.
const STEPS: [(Step, bool); 5] = [
    (Step::Diag { class: 0 }, true),
    (Step::Diag { class: 0 }, false),
    (Step::Flip { class: 1, other: 1 }, false),
    (
        Step::Tri {
            class: 1,
            left: 1,
            right: 1,
        },
        false,
    ),
    (
        Step::Tri {
            class: 2,
            left: 1,
            right: 1,
        },
        false,
    ),
];

// The cells of one class of the pairs of three points.
fn one_class(rt: &(impl Abort + AllocGlobal)) -> Result<Cells, Fail> {
    let raw = Colouring::new(rt.alloc(), 3, 0)?;
    Ok(cells_of(rt.alloc(), &raw)?)
}

// The classes are the diagonal of three points and the other pairs, row by row.
fn has_two_classes(rt: &impl Abort, cells: &Cells) {
    assert_eq!(rt; (cells.size(), cells.rank()), (3, 2));
    for x in 0..cells.size() {
        for y in 0..cells.size() {
            assert_eq!(rt; cells.class_at(x, y), u32::from(x != y));
        }
    }
}

// The steps are made one after the other on one class, and end in the two.
fn makes_steps(rt: &(impl Abort + AllocGlobal), cells: &mut Cells) -> Result<(), Fail> {
    let fault = cells.first_fault(rt.alloc())?;
    assert_eq!(rt; fault, Some(Step::Diag { class: 0 }));
    for (step, split) in &STEPS {
        assert_eq!(rt; splits(cells, *step), *split);
        has_two_classes(rt, cells);
    }
    let fault = cells.first_fault(rt.alloc())?;
    assert_eq!(rt; fault, None);
    Ok(())
}

#[test]
fn steps_on_three_points(rt: HostRuntime) -> Result<(), Fail> {
    makes_steps(&rt, &mut one_class(&rt)?)
}

// A round makes two classes of one, and the next is idle.
fn makes_rounds(rt: &(impl Abort + AllocGlobal), cells: &mut Cells) -> Result<(), Fail> {
    for wanted in [true, false] {
        let split = cells.round(rt.alloc())?;
        assert_eq!(rt; split, wanted);
        has_two_classes(rt, cells);
    }
    Ok(())
}

#[test]
fn rounds_on_three_points(rt: HostRuntime) -> Result<(), Fail> {
    makes_rounds(&rt, &mut one_class(&rt)?)
}
