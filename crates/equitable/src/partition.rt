//! The cells of the points.

ghost use Rattle.std.specs.Prelude.{◌≡◌, ◌==◌, ◌↔◌, nat_lt, ℕ, ◌+◌, ◌-◌, ◌^◌, ◌<◌, ◌≤◌, IsTrue, OnOk, IfOk, count_by, filter, length, map, slice_index, if◌then◌else◌};
ghost use Rattle.pair_colours.specs.Colouring.{points};
ghost use Rattle.pair_colours.specs.Naming.{first_met};
ghost use Rattle.pair_colours.specs.declared.coloured_pairs.TheConstants.{MOST_POINTS};
ghost use Rattle.equitable.specs.Equitable.{arcs_into, cell_count, numbered};
ghost use Rattle.equitable.specs.CellSplit.{HasParts, NamesCells, keys_in, parted_by, split_of};
ghost use Rattle.equitable.specs.Acceptance.{one_cell};
ghost use Rattle.equitable.specs.Cells.{FitsCells, UsesBelow};

use crate::cell_points::{arcs_to, points_of};
use crate::cell_steps::CellStep;
use indexmap::IndexSet;
use pair_colours::{Colouring, NoMemory, Numbers};
use std::alloc::Global;
use std::marker::Model;

// A partition of the points, as the list of their cells.
#[derive(Drop)]
pub(crate) struct Partition {
    cells: Vec<u32>,
    count: u32,
}

impl Model for Partition {
    ghost use Rattle.std.specs.Prelude.{List, ℕ};
    ghost use Rattle.equitable.specs.Cells.{FitsCells};

    ghost Value = { List ℕ };

    ghost view = { λ p. p.cells.items };

    ghost invariant = { λ p. FitsCells p.cells.items p.count };
}

impl Partition {
    // So many points in one cell.
    pub(crate) fn one_cell(alloc: Global, size: u32) -> Result<Partition, NoMemory>
        requires some { 1 ≤ size }
        requires few { size ≤ MOST_POINTS }
        ensures { IfOk result (λ p. p ≡ one_cell size) }
    {
        let cells = vec![in alloc; 0; size as usize]?;
        Ok(Partition { cells, count: 1 })
    }

    // The cells of the points.
    pub(crate) fn as_slice(&self) -> &[u32]
        ensures cells { result.now ≡ self.now }
        ensures within { FitsCells self.now (cell_count self.now) }
    {
        &self.cells
    }

    // How many cells there are.
    pub(crate) fn count(&self) -> u32
        ensures { result ≡ cell_count self.now }
    {
        self.count
    }

    // Whether a step names numbers of cells.
    pub(crate) fn names(&self, step: CellStep) -> bool
        ensures { IsTrue result ↔ NamesCells self.now step }
    {
        let count = self.count();
        step.cell < count && step.into < count
    }

    // Makes a step that names cells, and says whether its cell had two parts.
    pub(crate) fn split(
        &mut self,
        alloc: Global,
        arcs: &Colouring,
        step: CellStep,
    ) -> Result<bool, NoMemory>
        requires points { length self.old ≡ arcs.now.size }
        requires names { NamesCells self.old step }
        ensures split { OnOk result (self.new ≡ split_of arcs.now self.old step) }
        ensures parts { IfOk result (λ parted. IsTrue parted ↔ HasParts arcs.now self.old step) }
    {
        let keys = keys_of(alloc, arcs, &self.cells, step)?;
        let met = keys_met(alloc, &self.cells, &keys, step.cell)?;
        let parts = met.len();
        self.cells = parted(alloc, &self.cells, &keys, &met, step.cell, self.count)?;
        self.count += parts as u32 - 1;
        Ok(parts >= 2)
    }

    // The cells of the points, numbered by first occurrence.
    pub(crate) fn numbered(&self, alloc: Global) -> Result<Numbers, NoMemory>
        ensures { IfOk result (λ numbers. numbers ≡ numbered self.now) }
    {
        let met = cells_met(alloc, &self.cells)?;
        let mut numbers = Numbers::new(alloc);
        for cell in &self.cells {
            match met.get_index_of(cell) {
                Some(number) => numbers.push(number as u32)?,
                None => unreachable!(),
            }
        }
        Ok(numbers)
    }
}

// The key of a point for a step, if the point is in the cell that the step parts, and else 0.
fn key_at(arcs: &Colouring, cells: &[u32], members: &[u32], step: CellStep, x: u32) -> u32
    requires points { length cells.now ≡ arcs.now.size }
    requires few { length cells.now ≤ MOST_POINTS }
    requires members { members.now ≡ filter (λ z. slice_index cells.now z == step.into) (points (length cells.now)) }
    requires row { x < arcs.now.size }
    ensures { result ≡ (if slice_index cells.now x == step.cell then arcs_into arcs.now cells.now x step.into else 0) }
{
    if cells[x as usize] == step.cell {
        arcs_to(arcs, x, members)
    } else {
        0
    }
}

// The keys of all points.
fn keys_of(
    alloc: Global,
    arcs: &Colouring,
    cells: &[u32],
    step: CellStep,
) -> Result<Vec<u32>, NoMemory>
    requires points { length cells.now ≡ arcs.now.size }
    requires few { length cells.now ≤ MOST_POINTS }
    ensures { IfOk result (λ keys. keys.items
        ≡ map (λ x. if slice_index cells.now x == step.cell then arcs_into arcs.now cells.now x step.into else 0) (points arcs.now.size)) }
{
    let members = points_of(alloc, cells, step.into)?;
    let mut keys = Vec::new(alloc);
    for x in 0..arcs.size() {
        keys.push(key_at(arcs, cells, &members, step, x))?;
    }
    Ok(keys)
}

// The different keys of the points of a cell.
fn keys_met(
    alloc: Global,
    cells: &[u32],
    keys: &[u32],
    cell: u32,
) -> Result<IndexSet<u32>, NoMemory>
    requires { length keys.now ≡ length cells.now }
    ensures { IfOk result (λ met. met.keys ≡ keys_in cells.now cell (λ x. slice_index keys.now x)) }
{
    let mut met = IndexSet::new(alloc);
    for x in 0..cells.len() {
        if cells[x] == cell {
            met.insert(keys[x])?;
        }
    }
    Ok(met)
}

// How many of the keys are smaller.
fn keys_before(met: &IndexSet<u32>, key: u32) -> usize
    ensures before { result ≡ count_by (λ other. nat_lt other key) met.now.keys }
    ensures few { result ≤ length met.now.keys }
{
    met.iter().filter(|other| **other < key).count()
}

// The number of a point after a cell was parted by keys.
fn number_at(
    cells: &[u32],
    keys: &[u32],
    met: &IndexSet<u32>,
    cell: u32,
    count: u32,
    x: usize,
) -> u32
    requires inside { x < length cells.now }
    requires points { length keys.now ≡ length cells.now }
    requires room { count + length met.now.keys < 2 ^ 32 }
    ensures { result ≡ (if slice_index cells.now x == cell
        then (if count_by (λ other. nat_lt other (slice_index keys.now x)) met.now.keys == 0 then cell
        else count + (count_by (λ other. nat_lt other (slice_index keys.now x)) met.now.keys - 1))
        else slice_index cells.now x) }
{
    if cells[x] == cell {
        let before = keys_before(met, keys[x]);
        part_number(cell, count, before as u32)
    } else {
        cells[x]
    }
}

// The cells after a cell was parted by keys.
fn parted(
    alloc: Global,
    cells: &[u32],
    keys: &[u32],
    met: &IndexSet<u32>,
    cell: u32,
    count: u32,
) -> Result<Vec<u32>, NoMemory>
    requires points { length keys.now ≡ length cells.now }
    requires room { count + length met.now.keys < 2 ^ 32 }
    requires count { count ≡ cell_count cells.now }
    requires met { met.now.keys ≡ keys_in cells.now cell (λ x. slice_index keys.now x) }
    ensures { IfOk result (λ parted. parted.items ≡ parted_by cells.now cell (λ x. slice_index keys.now x)) }
{
    let mut parted = Vec::new(alloc);
    for x in 0..cells.len() {
        parted.push(number_at(cells, keys, met, cell, count, x))?;
    }
    Ok(parted)
}

// The number of the part of a cell that has so many parts before it.
fn part_number(cell: u32, count: u32, before: u32) -> u32
    requires { count + before < 2 ^ 32 }
    ensures { result ≡ (if before == 0 then cell else count + (before - 1)) }
{
    if before == 0 {
        cell
    } else {
        count + (before - 1)
    }
}

// The different cells, in the order of their first points.
fn cells_met(alloc: Global, cells: &[u32]) -> Result<IndexSet<u32>, NoMemory>
    ensures { IfOk result (λ met. met.keys ≡ first_met cells.now) }
{
    let mut met = IndexSet::new(alloc);
    for cell in cells {
        met.insert(*cell)?;
    }
    Ok(met)
}
