//! How many neighbours of a point are nearer to another point, and how many farther.

ghost use Rattle.std.specs.Prelude.{◌≡◌, ◌+◌, ◌*◌, ◌<◌, ◌≤◌, ℕ, IfOk, All, length};
ghost use Rattle.drg_arrays.specs.Tables.{AreCounts, neighbour_count};

use crate::graph::EdgeTable;
use pair_colours::NoMemory;
use std::alloc::Global;

// The numbers c and b of all pairs, row by row.
#[derive(Drop)]
pub(crate) struct Counts {
    pub(crate) nearer: Vec<u32>,
    pub(crate) farther: Vec<u32>,
}

// How many neighbours of v are at the distance just below `end` from u. The comparison stands before
// the branch, so that the compiled loop has no branch.
fn neighbour_count(graph: &EdgeTable, distances: &[u32], u: usize, v: usize, end: u32) -> u32
    requires row { u < graph.now.size }
    requires column { v < graph.now.size }
    requires len { length distances.now ≡ graph.now.size * graph.now.size }
    requires small { All (λ distance. distance < graph.now.size) distances.now }
    ensures { result ≡ neighbour_count graph.now distances.now u v end }
{
    let row = u * graph.size();
    let mut count = 0;
    for w in 0..graph.size() {
        let is_there = distances[row + w] + 1 == end;
        if graph.has_edge(v, w) && is_there {
            count += 1;
        }
    }
    count
}

// Both numbers of each pair.
pub(crate) fn counts_of(
    alloc: Global,
    graph: &EdgeTable,
    distances: &[u32],
) -> Result<Counts, NoMemory>
    requires len { length distances.now ≡ graph.now.size * graph.now.size }
    requires small { All (λ distance. distance < graph.now.size) distances.now }
    ensures { IfOk result (λ counts.
        AreCounts graph.now distances.now counts.nearer.items counts.farther.items) }
{
    let mut counts = Counts {
        nearer: Vec::new(alloc),
        farther: Vec::new(alloc),
    };
    for place in 0..distances.len() {
        let (u, v) = (place / graph.size(), place % graph.size());
        let own = distances[place];
        let nearer = neighbour_count(graph, distances, u, v, own);
        counts.nearer.push(nearer)?;
        let farther = neighbour_count(graph, distances, u, v, own + 2);
        counts.farther.push(farther)?;
    }
    Ok(counts)
}
