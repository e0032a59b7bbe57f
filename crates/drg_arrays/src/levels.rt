//! The distances from one point, by a search level by level.

ghost use Rattle.std.specs.Prelude.{◌≡◌, ◌==◌, ◌&&◌, ◌⊎◌, ◌+◌, ◌<◌, ◌≤◌, ℕ, IsTrue, IfOk, length, slice_index, if◌then◌else◌};
ghost use Rattle.drg_arrays.specs.Graph.{is_edge};
ghost use Rattle.drg_arrays.specs.Tables.{IsNextLevel, IsDistanceRow, unreached_count};

use crate::graph::EdgeTable;
use pair_colours::NoMemory;
use std::alloc::Global;

// The entry of a point that no walk reaches.
pub(crate) const UNREACHED: u32 = u32::MAX;

// Puts the neighbours of w that have no level at the level, and says whether there are any.
fn mark_neighbours(graph: &EdgeTable, levels: &mut [u32], w: usize, level: u32) -> bool
    requires points { length levels.old ≡ graph.now.size }
    requires row { w < graph.now.size }
    requires reached { level < UNREACHED }
    ensures marked { (y : ℕ) → y < graph.now.size → slice_index levels.new y
        ≡ (if (slice_index levels.old y == UNREACHED) && is_edge graph.now w y then level
        else slice_index levels.old y) }
    ensures fewer { unreached_count levels.new + (if result then 1 else 0) ≤ unreached_count levels.old }
    ensures same { IsTrue result ⊎ (levels.new ≡ levels.old) }
{
    let mut grew = false;
    for y in 0..graph.size() {
        if levels[y] == UNREACHED && graph.has_edge(w, y) {
            levels[y] = level;
            grew = true;
        }
    }
    grew
}

// Puts the neighbours of the points at a level that have no level at the next one, and says whether
// there are any.
fn mark_next(graph: &EdgeTable, levels: &mut [u32], level: u32) -> bool
    requires points { length levels.old ≡ graph.now.size }
    requires reached { level + 1 < UNREACHED }
    ensures next { IsNextLevel graph.now levels.old levels.new level graph.now.size }
    ensures fewer { unreached_count levels.new + (if result then 1 else 0) ≤ unreached_count levels.old }
    ensures same { IsTrue result ⊎ (levels.new ≡ levels.old) }
{
    let mut grew = false;
    for w in 0..graph.size() {
        if levels[w] == level && mark_neighbours(graph, levels, w, level + 1) {
            grew = true;
        }
    }
    grew
}

// The distances from x.
pub(crate) fn distances_from(
    alloc: Global,
    graph: &EdgeTable,
    x: usize,
) -> Result<Vec<u32>, NoMemory>
    requires { x < graph.now.size }
    ensures { IfOk result (λ row. IsDistanceRow graph.now x row.items) }
{
    let mut levels = vec![in alloc; UNREACHED; graph.size()]?;
    levels[x] = 0;
    let mut level = 0;
    while mark_next(graph, &mut levels, level) {
        level += 1;
    }
    Ok(levels)
}
