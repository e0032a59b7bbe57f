//! Sets of colours as the edges of graphs.

ghost use Rattle.std.specs.Prelude.{◌≡◌, ◌↔◌, ℕ, ◌<◌, IsTrue, IfOk, true, false};
ghost use Rattle.pair_colours.specs.Colouring.{colour_at};
ghost use Rattle.pair_colours.specs.ColourSets.{IsColourSet, IsEdgeSet, is_in};

use crate::coloured_pairs::Colouring;
use crate::no_memory::NoMemory;
use indexmap::IndexSet;
use std::alloc::Global;
use std::marker::Model;

/// A set of colours that is asked many times. A contract sees it as a list, of which only what is in
/// it counts.
#[derive(Drop)]
pub struct ColourSet {
    members: IndexSet<u32>,
}

impl Model for ColourSet {
    ghost use Rattle.std.specs.Prelude.{ℕ, List};

    ghost Value = { List ℕ };

    ghost view = { λ s. s.members.keys };
}

impl ColourSet {
    /// The set of the numbers of a list.
    pub fn of(alloc: Global, numbers: &[u32]) -> Result<ColourSet, NoMemory>
        ensures { IfOk result (λ set. is_in set ≡ is_in numbers.now) }
    {
        let mut members = IndexSet::new(alloc);
        for number in numbers {
            members.insert(*number)?;
        }
        Ok(ColourSet { members })
    }

    /// Whether a colour is in the set.
    pub fn contains(&self, colour: u32) -> bool
        ensures { result ≡ is_in self.now colour }
    {
        self.members.contains(&colour)
    }

    /// Whether the colour of a pair is in the set.
    pub fn has_pair(&self, relation: &Colouring, x: u32, y: u32) -> bool
        requires row { x < relation.now.size }
        requires column { y < relation.now.size }
        ensures { result ≡ is_in self.now (colour_at relation.now x y) }
    {
        self.contains(relation.get(x, y))
    }

    // Whether no diagonal pair has a colour in the set.
    fn is_loopless(&self, relation: &Colouring) -> bool
        ensures { IsTrue result ↔ ((x : ℕ) → x < relation.now.size → is_in self.now (colour_at relation.now x x) ≡ false) }
    {
        for x in 0..relation.size() {
            if self.has_pair(relation, x, x) {
                return false;
            }
        }
        true
    }

    // Whether with each pair (x, y) the pair (y, x) has a colour in the set too.
    fn is_symmetric_at(&self, relation: &Colouring, x: u32) -> bool
        requires { x < relation.now.size }
        ensures { IsTrue result ↔ ((y : ℕ) → y < relation.now.size
            → is_in self.now (colour_at relation.now x y) ≡ true → is_in self.now (colour_at relation.now y x) ≡ true) }
    {
        for y in 0..relation.size() {
            if self.has_pair(relation, x, y) && !self.has_pair(relation, y, x) {
                return false;
            }
        }
        true
    }

    // Whether with each pair its transposed pair has a colour in the set too.
    fn is_symmetric(&self, relation: &Colouring) -> bool
        ensures { IsTrue result ↔ ((x y : ℕ) → x < relation.now.size → y < relation.now.size
            → is_in self.now (colour_at relation.now x y) ≡ true → is_in self.now (colour_at relation.now y x) ≡ true) }
    {
        for x in 0..relation.size() {
            if !self.is_symmetric_at(relation, x) {
                return false;
            }
        }
        true
    }
}

/// Whether each number of the set is the colour of a pair.
pub fn is_colour_set(alloc: Global, relation: &Colouring, set: &[u32]) -> Result<bool, NoMemory>
    ensures { IfOk result (λ answer. IsTrue answer ↔ IsColourSet relation.now set.now) }
{
    let colours = ColourSet::of(alloc, relation.colours())?;
    for number in set {
        if !colours.contains(*number) {
            return Ok(false);
        }
    }
    Ok(true)
}

/// Whether the pairs with a colour in the set are the edges of a simple graph: each number of the
/// set is the colour of a pair, no diagonal pair has a colour in the set, and with each pair its
/// transposed pair has one.
pub fn is_edge_set(alloc: Global, relation: &Colouring, set: &[u32]) -> Result<bool, NoMemory>
    ensures { IfOk result (λ answer. IsTrue answer ↔ IsEdgeSet relation.now set.now) }
{
    if !is_colour_set(alloc, relation, set)? {
        return Ok(false);
    }
    let edges = ColourSet::of(alloc, set)?;
    Ok(edges.is_loopless(relation) && edges.is_symmetric(relation))
}
