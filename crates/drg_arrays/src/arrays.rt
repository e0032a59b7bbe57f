//! Whether the graph of a set of colours is distance-regular.

ghost use Rattle.std.specs.Prelude.{◌≡◌, ◌+◌, ◌*◌, ◌<◌, ◌≤◌, ℕ, IfOk, OnOk, IsErrOf, All, map, length, slice_index};
ghost use Rattle.pair_colours.specs.declared.coloured_pairs.TheConstants.{MOST_POINTS};
ghost use Rattle.drg_arrays.specs.Graph.{IsGraphSet};
ghost use Rattle.drg_arrays.specs.Tables.{AreDistances};
ghost use Rattle.drg_arrays.specs.Answer.{IsArrayAnswer, IsOnlyAnswer, IsGraphAnswer};

use crate::answer::{ArrayAnswer, ArrayFault};
use crate::counts::counts_of;
use crate::distances::{distances, first_unreached, greatest};
use crate::graph::{EdgeTable, graph_of};
use crate::places::{first_places, first_unlike};
use pair_colours::{Colouring, NoMemory, Numbers, is_edge_set};
use std::alloc::Global;

/// Judges the graph whose edges are the pairs with a colour in the set. The set may hold a colour
/// more than once; its order does not matter.
pub fn array(alloc: Global, relation: &Colouring, set: &[u32]) -> Result<ArrayAnswer, ArrayFault>
    ensures answer { IfOk result (IsArrayAnswer relation.now set.now) }
    ensures only { IfOk result (IsOnlyAnswer relation.now set.now) }
    ensures good { OnOk result (IsGraphSet relation.now set.now) }
    ensures bad { IsErrOf result ArrayFault.BadSet → ¬ IsGraphSet relation.now set.now }
{
    if set.is_empty() || !is_edge_set(alloc, relation, set)? {
        return Err(ArrayFault::BadSet);
    }
    let graph = graph_of(alloc, relation, set)?;
    Ok(judged(alloc, &graph)?)
}

// The answer for a graph.
fn judged(alloc: Global, graph: &EdgeTable) -> Result<ArrayAnswer, NoMemory>
    ensures { IfOk result (IsGraphAnswer graph.now) }
{
    let size = graph.size();
    let table = distances(alloc, graph)?;
    match first_unreached(&table) {
        Some(place) => Ok(ArrayAnswer::Disconnected {
            x: (place / size) as u32,
            y: (place % size) as u32,
        }),
        None => compared(alloc, graph, &table),
    }
}

// The answer for a connected graph with these distances.
fn compared(alloc: Global, graph: &EdgeTable, distances: &[u32]) -> Result<ArrayAnswer, NoMemory>
    requires { AreDistances graph.now distances.now }
    ensures { IfOk result (IsGraphAnswer graph.now) }
{
    let size = graph.size();
    let counts = counts_of(alloc, graph, distances)?;
    let firsts = first_places(alloc, distances, size)?;
    if let Some(place) = first_unlike(distances, &firsts, &counts) {
        let first = firsts[distances[place] as usize];
        return Ok(ArrayAnswer::Irregular {
            x: (first / size) as u32,
            y: (first % size) as u32,
            u: (place / size) as u32,
            v: (place % size) as u32,
        });
    }
    let diameter = greatest(distances) as usize;
    let b = numbers_at(alloc, &firsts[..diameter], &counts.farther)?;
    let c = numbers_at(alloc, &firsts[1..diameter + 1], &counts.nearer)?;
    Ok(ArrayAnswer::Array { b, c })
}

// The numbers at these places.
fn numbers_at(alloc: Global, places: &[usize], numbers: &[u32]) -> Result<Numbers, NoMemory>
    requires few { length places.now ≤ MOST_POINTS }
    requires within { All (λ place. place < length numbers.now) places.now }
    ensures { IfOk result (λ found. found ≡ map (λ place. slice_index numbers.now place) places.now) }
{
    let mut found = Numbers::new(alloc);
    for place in places {
        found.push(numbers[*place])?;
    }
    Ok(found)
}
