//! The graph of a set of colours.

ghost use Rattle.std.specs.Prelude.{◌≡◌, ◌+◌, ◌*◌, ◌<◌, ◌≤◌, IfOk, map};
ghost use Rattle.pair_colours.specs.ColourSets.{is_in};
ghost use Rattle.drg_arrays.specs.Graph.{graph_of, is_edge};
ghost use Rattle.drg_arrays.specs.Tables.{FitsGraph};

use pair_colours::{ColourSet, Colouring, NoMemory};
use std::alloc::Global;
use std::marker::Model;

// Whether each pair is an edge, row by row.
#[derive(Drop)]
pub(crate) struct EdgeTable {
    size: usize,
    edges: Vec<bool>,
}

impl Model for EdgeTable {
    ghost use Rattle.drg_arrays.specs.Graph.{Graph};
    ghost use Rattle.drg_arrays.specs.Tables.{FitsGraph};

    ghost Value = { Graph };

    ghost view = { λ t. record { size = t.size; edges = t.edges.items } };

    ghost invariant = { λ t. FitsGraph (record { size = t.size; edges = t.edges.items }) };
}

impl EdgeTable {
    // The number of points.
    pub(crate) fn size(&self) -> usize
        ensures points { result ≡ self.now.size }
        ensures within { FitsGraph self.now }
    {
        self.size
    }

    // Whether y is a neighbour of x.
    pub(crate) fn has_edge(&self, x: usize, y: usize) -> bool
        requires row { x < self.now.size }
        requires column { y < self.now.size }
        ensures { result ≡ is_edge self.now x y }
    {
        self.edges[x * self.size + y]
    }
}

// For each colour, whether it is in the set.
fn chosen(alloc: Global, colours: &[u32], set: &[u32]) -> Result<Vec<bool>, NoMemory>
    ensures { IfOk result (λ edges. edges.items ≡ map (is_in set.now) colours.now) }
{
    let members = ColourSet::of(alloc, set)?;
    let mut edges = Vec::new(alloc);
    for colour in colours {
        edges.push(members.contains(*colour))?;
    }
    Ok(edges)
}

// The graph whose edges are the pairs with a colour in the set.
pub(crate) fn graph_of(
    alloc: Global,
    relation: &Colouring,
    set: &[u32],
) -> Result<EdgeTable, NoMemory>
    ensures { IfOk result (λ graph. graph ≡ graph_of relation.now set.now) }
{
    let edges = chosen(alloc, relation.colours(), set)?;
    Ok(EdgeTable {
        size: relation.size() as usize,
        edges,
    })
}
