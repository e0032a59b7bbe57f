//! The arcs of a set of colours.

ghost use Rattle.std.specs.Prelude.{◌≡◌, ◌↔◌, ◌<◌, IsTrue, IfOk, if◌then◌else◌};
ghost use Rattle.pair_colours.specs.Colouring.{colour_at};
ghost use Rattle.pair_colours.specs.ColourSets.{is_in};
ghost use Rattle.equitable.specs.Arcs.{IsArcSet, IsArcs, HasArcsOf, arcs_of};

use pair_colours::{ColourSet, Colouring, NoMemory, is_colour_set};
use std::alloc::Global;

// Whether the set chooses classes.
pub(crate) fn is_arc_set(alloc: Global, relation: &Colouring, set: &[u32]) -> Result<bool, NoMemory>
    ensures { IfOk result (λ answer. IsTrue answer ↔ IsArcSet relation.now set.now) }
{
    if set.is_empty() {
        return Ok(false);
    }
    is_colour_set(alloc, relation, set)
}

// 1 if a pair has a colour in the set, and else 0.
fn bit_at(relation: &Colouring, chosen: &ColourSet, x: u32, y: u32) -> u32
    requires row { x < relation.now.size }
    requires column { y < relation.now.size }
    ensures { result ≡ (if is_in chosen.now (colour_at relation.now x y) then 1 else 0) }
{
    if chosen.has_pair(relation, x, y) {
        1
    } else {
        0
    }
}

// The colouring that is 1 on the pairs with a colour in the set, and 0 on all others.
pub(crate) fn arcs_of(
    alloc: Global,
    relation: &Colouring,
    set: &[u32],
) -> Result<Colouring, NoMemory>
    ensures all { IfOk result (λ arcs. arcs ≡ arcs_of relation.now set.now) }
    ensures bits { IfOk result (λ arcs. IsArcs arcs) }
    ensures theirs { IfOk result (λ arcs. HasArcsOf relation.now set.now arcs) }
{
    let chosen = ColourSet::of(alloc, set)?;
    let mut arcs = relation.copy(alloc)?;
    let size = relation.size();
    for place in 0..size * size {
        let (x, y) = (place / size, place % size);
        arcs.set(x, y, bit_at(relation, &chosen, x, y));
    }
    Ok(arcs)
}
