//! The points of a cell, and the arcs that lead to them.

ghost use Rattle.std.specs.Prelude.{◌≡◌, ◌==◌, ℕ, ◌<◌, ◌≤◌, All, IfOk, count_by, filter, length, map, slice_index};
ghost use Rattle.pair_colours.specs.Colouring.{colour_at, points};
ghost use Rattle.pair_colours.specs.declared.coloured_pairs.TheConstants.{MOST_POINTS};

use pair_colours::{Colouring, NoMemory};
use std::alloc::Global;

// The points of a cell, in rising order.
pub(crate) fn points_of(alloc: Global, cells: &[u32], cell: u32) -> Result<Vec<u32>, NoMemory>
    requires { length cells.now ≤ MOST_POINTS }
    ensures { IfOk result (λ members. members.items ≡ filter (λ z. slice_index cells.now z == cell) (points (length cells.now))) }
{
    let mut members = Vec::new(alloc);
    for z in 0..cells.len() {
        if cells[z] == cell {
            members.push(z as u32)?;
        }
    }
    Ok(members)
}

// How many arcs lead from a point to some others.
pub(crate) fn arcs_to(arcs: &Colouring, x: u32, members: &[u32]) -> u32
    requires row { x < arcs.now.size }
    requires columns { All (λ z. z < arcs.now.size) members.now }
    requires few { length members.now ≤ MOST_POINTS }
    ensures { result ≡ count_by (λ z. colour_at arcs.now x z == 1) members.now }
{
    let mut count = 0;
    for z in members {
        let arc = arcs.get(x, *z) == 1;
        if arc {
            count += 1;
        }
    }
    count
}
