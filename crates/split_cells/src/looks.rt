//! Steps that a look at a few points suggests. They serve a search: nothing is promised of them.

ghost use Rattle.std.specs.Prelude.{◌≡◌, ◌<◌, length};
ghost use Rattle.split_cells.specs.Grids.{IsUsed};
ghost use Rattle.split_cells.specs.Pairs.{IsClassed};

use crate::classed_pairs::ClassedPairs;
use crate::sides::{Sides, sides_of};
use crate::triangle_counts::Triangle;

// How many points are looked at.
const MOST_LOOKS: u32 = 8;

// A step that costs no more is taken at once; one that costs more than the other is not worth it.
const CHEAP: u32 = 30;

const DEAR: u32 = 400;

// A step by the classes over one point, and about how long it takes to count its triangles.
#[derive(Clone, Copy)]
struct Look {
    cost: u32,
    left: u32,
    right: u32,
}

// The next number of a linear congruence modulo 2^32.
fn next(seed: u32) -> u32 {
    seed.wrapping_mul(1_664_525).wrapping_add(1_013_904_223)
}

// A place below a bound.
fn drawn(seed: u32, bound: usize) -> usize
    requires { 0 < bound }
    ensures { result < bound }
{
    (seed >> 8) as usize % bound
}

// How many pairs a class has.
fn size_of(pairs: &ClassedPairs, class: u32) -> u32 {
    pairs
        .parting
        .len
        .get(class as usize)
        .copied()
        .unwrap_or(u32::MAX)
}

// The step by the classes over z.
fn look_over(pairs: &ClassedPairs, sides: Sides<'_>, z: usize) -> Look
    requires row { z < length sides.row.now }
    requires column { z < length sides.column.now }
{
    let left = sides.row[z];
    let right = sides.column[z];
    let row = pairs.size.points() / 2 + 10;
    let first = size_of(pairs, left);
    let second = size_of(pairs, right);
    let cost = first
        .saturating_mul(second.min(row))
        .min(second.saturating_mul(row));
    Look { cost, left, right }
}

// The cheapest step by the classes over a few points.
fn cheapest(pairs: &ClassedPairs, sides: Sides<'_>, seed: u32) -> Look
    requires row { 0 < length sides.row.now }
    requires column { length sides.column.now ≡ length sides.row.now }
{
    let mut seed = next(seed);
    let mut best = look_over(pairs, sides, drawn(seed, sides.row.len()));
    for _ in 1..MOST_LOOKS {
        if best.cost <= CHEAP {
            break;
        }
        seed = next(seed);
        let other = look_over(pairs, sides, drawn(seed, sides.row.len()));
        if other.cost < best.cost {
            best = other;
        }
    }
    best
}

// A step on class k that does not take long, by the classes over a few points of one of its pairs.
pub(crate) fn likely_step(pairs: &ClassedPairs, k: u32, seed: u32) -> Option<Triangle>
    requires classed { IsClassed pairs.now }
    requires used { IsUsed pairs.now.parting.class.items pairs.now.parting.rank }
    requires class { k < pairs.now.parting.rank }
{
    let members = pairs.parting.members(k);
    let sides = sides_of(pairs, members[drawn(seed, members.len())]);
    let best = cheapest(pairs, sides, seed);
    let over_class = size_of(pairs, k).saturating_mul(pairs.size.points() / 4 + 8);
    if best.cost > DEAR && best.cost > over_class {
        return None;
    }
    Some(Triangle {
        class: k,
        left: best.left,
        right: best.right,
    })
}
