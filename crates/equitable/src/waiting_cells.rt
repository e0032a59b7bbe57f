//! Steps towards the coarsest equitable partition, by cells that wait to part others.
//!
//! Each cell that waits parts all cells by the arcs into it. A cell that is itself parted while it does
//! not wait has parted the others before. Then the arcs into its part with the most points are those
//! into the whole without those into the other parts, and that part need not wait (Hopcroft, 1971;
//! Paige and Tarjan, 1987). Only how fast the partition is found rests on this: each step that is made
//! may be made, and `refining` tests where they end.

ghost use Rattle.std.specs.Prelude.{◌≡◌, ◌==◌, ℕ, ◌<◌, ◌≤◌, ◌^◌, All, OnOk, IfOk, count_by, length};
ghost use Rattle.pair_colours.specs.Colouring.{FitsColouring};
ghost use Rattle.pair_colours.specs.declared.coloured_pairs.TheConstants.{MOST_POINTS};
ghost use Rattle.equitable.specs.Equitable.{cell_count};
ghost use Rattle.equitable.specs.Acceptance.{IsReached};

use crate::cell_points::{arcs_to, points_of};
use crate::cell_steps::{CellStep, CellSteps};
use crate::partition::Partition;
use pair_colours::{Colouring, NoMemory};
use std::alloc::Global;

// Makes a step, if it may be made, and puts it after the steps before it; says whether it was made.
fn take_step(
    alloc: Global,
    arcs: &Colouring,
    partition: &mut Partition,
    steps: &mut CellSteps,
    step: CellStep,
) -> Result<bool, NoMemory>
    requires fits { FitsColouring arcs.now }
    requires reached { IsReached arcs.now partition.old steps.old }
    ensures { OnOk result (IsReached arcs.now partition.new steps.new) }
{
    let named = partition.names(step);
    if !named {
        return Ok(false);
    }
    let split = partition.split(alloc, arcs, step)?;
    if !split {
        return Ok(false);
    }
    steps.push(step)?;
    Ok(true)
}

// How many points are in a cell.
fn size_of(cells: &[u32], cell: u32) -> usize
    ensures { result ≡ count_by (λ other. other == cell) cells.now }
{
    cells.iter().filter(|other| **other == cell).count()
}

// The cell with the most points, of a cell and those with the numbers of a range.
fn greatest(cells: &[u32], cell: u32, first: u32, end: u32) -> u32 {
    let mut greatest = cell;
    let mut most = size_of(cells, cell);
    for part in first..end {
        let size = size_of(cells, part);
        if size > most {
            greatest = part;
            most = size;
        }
    }
    greatest
}

// Lets the parts of a cell wait, which has kept its number and has given others the numbers of a range:
// all of them if the cell waits, and else all but one with the most points.
fn let_wait(
    waiting: &mut Vec<u32>,
    cells: &[u32],
    cell: u32,
    first: u32,
    end: u32,
) -> Result<(), NoMemory> {
    let waits = waiting.contains(&cell);
    let spared = if waits {
        cell
    } else {
        greatest(cells, cell, first, end)
    };
    if spared != cell {
        waiting.push(cell)?;
    }
    for part in first..end {
        if part != spared {
            waiting.push(part)?;
        }
    }
    Ok(())
}

// Parts a cell by the arcs into another, if that gives parts, and lets these wait.
fn part_cell(
    alloc: Global,
    arcs: &Colouring,
    partition: &mut Partition,
    steps: &mut CellSteps,
    waiting: &mut Vec<u32>,
    step: CellStep,
) -> Result<(), NoMemory>
    requires fits { FitsColouring arcs.now }
    requires reached { IsReached arcs.now partition.old steps.old }
    ensures { OnOk result (IsReached arcs.now partition.new steps.new) }
{
    let first = partition.count();
    let split = take_step(alloc, arcs, partition, steps, step)?;
    if !split {
        return Ok(());
    }
    let end = partition.count();
    let_wait(waiting, partition.as_slice(), step.cell, first, end)
}

// How many arcs lead from each point to some.
fn arcs_to_each(alloc: Global, arcs: &Colouring, members: &[u32]) -> Result<Vec<u32>, NoMemory>
    requires columns { All (λ z. z < arcs.now.size) members.now }
    requires few { length members.now ≤ MOST_POINTS }
    ensures { IfOk result (λ counts. length counts.items ≡ arcs.now.size) }
{
    let mut counts = Vec::new(alloc);
    for x in 0..arcs.size() {
        counts.push(arcs_to(arcs, x, members))?;
    }
    Ok(counts)
}

// Marks the cells that have points with different counts.
fn mark_uneven(cells: &[u32], counts: &[u32], first: &mut [Option<u32>], uneven: &mut [bool])
    requires points { length counts.now ≡ length cells.now }
    requires first { All (λ cell. cell < length first.old) cells.now }
    requires uneven { All (λ cell. cell < length uneven.old) cells.now }
{
    for x in 0..cells.len() {
        let cell = cells[x] as usize;
        match first[cell] {
            None => first[cell] = Some(counts[x]),
            Some(count) => uneven[cell] = uneven[cell] || count != counts[x],
        }
    }
}

// Which cells have points from which not equally many arcs lead into a cell.
fn uneven_cells(
    alloc: Global,
    arcs: &Colouring,
    partition: &Partition,
    into: u32,
) -> Result<Vec<bool>, NoMemory>
    requires { length partition.now ≡ arcs.now.size }
    ensures { IfOk result (λ uneven. length uneven.items ≡ cell_count partition.now) }
{
    let cells = partition.as_slice();
    let count = partition.count() as usize;
    let members = points_of(alloc, cells, into)?;
    let counts = arcs_to_each(alloc, arcs, &members)?;
    let mut first = vec![in alloc; None; count]?;
    let mut uneven = vec![in alloc; false; count]?;
    mark_uneven(cells, &counts, &mut first, &mut uneven);
    Ok(uneven)
}

// Parts all cells by the arcs into one. That one comes last: when it is parted, it is another.
fn part_by(
    alloc: Global,
    arcs: &Colouring,
    partition: &mut Partition,
    steps: &mut CellSteps,
    waiting: &mut Vec<u32>,
    into: u32,
) -> Result<(), NoMemory>
    requires fits { FitsColouring arcs.now }
    requires reached { IsReached arcs.now partition.old steps.old }
    ensures { OnOk result (IsReached arcs.now partition.new steps.new) }
{
    let uneven = uneven_cells(alloc, arcs, partition, into)?;
    for (cell, odd) in uneven.iter().enumerate() {
        let cell = cell as u32;
        if *odd && cell != into {
            part_cell(
                alloc,
                arcs,
                partition,
                steps,
                waiting,
                CellStep { cell, into },
            )?;
        }
    }
    part_cell(
        alloc,
        arcs,
        partition,
        steps,
        waiting,
        CellStep { cell: into, into },
    )
}

// Makes steps until no cell waits. At most as many cells wait in all as there are points.
pub(crate) fn part_all(
    alloc: Global,
    arcs: &Colouring,
    partition: &mut Partition,
    steps: &mut CellSteps,
) -> Result<(), NoMemory>
    requires fits { FitsColouring arcs.now }
    requires reached { IsReached arcs.now partition.old steps.old }
    ensures { OnOk result (IsReached arcs.now partition.new steps.new) }
{
    let mut waiting = Vec::new(alloc);
    waiting.push(0)?;
    for _turn in 0..arcs.size() {
        let Some(into) = waiting.pop() else {
            return Ok(());
        };
        part_by(alloc, arcs, partition, steps, &mut waiting, into)?;
    }
    Ok(())
}
