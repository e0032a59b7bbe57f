//! The distances of all pairs.

ghost use Rattle.std.specs.Prelude.{◌≡◌, ◌≢◌, ◌+◌, ◌<◌, ◌≤◌, ℕ, IfOk, IfSome, IfNone, length, slice_index};
ghost use Rattle.drg_arrays.specs.Tables.{IsDistanceTable};

use crate::graph::EdgeTable;
use crate::levels::{UNREACHED, distances_from};
use pair_colours::NoMemory;
use std::alloc::Global;

// The distances of all pairs, row by row.
pub(crate) fn distances(alloc: Global, graph: &EdgeTable) -> Result<Vec<u32>, NoMemory>
    ensures { IfOk result (λ table. IsDistanceTable graph.now table.items graph.now.size) }
{
    let mut table = Vec::new(alloc);
    for x in 0..graph.size() {
        let row = distances_from(alloc, graph, x)?;
        table.extend_from_slice(&row)?;
    }
    Ok(table)
}

// The first place of the table that is not reached.
pub(crate) fn first_unreached(table: &[u32]) -> Option<usize>
    ensures within { IfSome result (λ place. place < length table.now) }
    ensures found { IfSome result (λ place. slice_index table.now place ≡ UNREACHED) }
    ensures before { IfSome result (λ place. (k : ℕ) → k < place → slice_index table.now k ≢ UNREACHED) }
    ensures none { IfNone result ((k : ℕ) → k < length table.now → slice_index table.now k ≢ UNREACHED) }
{
    for place in 0..table.len() {
        if table[place] == UNREACHED {
            return Some(place);
        }
    }
    None
}

// The greatest number of a list.
pub(crate) fn greatest(table: &[u32]) -> u32
    requires { 0 < length table.now }
    ensures bound { (k : ℕ) → k < length table.now → slice_index table.now k ≤ result }
    ensures found { (k : ℕ) × (k < length table.now) × (slice_index table.now k ≡ result) }
{
    let mut greatest = table[0];
    for distance in table {
        greatest = greatest.max(*distance);
    }
    greatest
}
