//! The relation of a number.

ghost use Rattle.std.specs.Prelude.{◌≡◌, ◌<◌, IfOk};
ghost use Rattle.pair_colours.specs.Colouring.{IsRawColouring};
ghost use Rattle.scheme_demo.specs.Demonstration.{demo_size, demo_weight, demo_colour, demo_relation_of};

use pair_colours::{Colouring, NoMemory};
use std::alloc::Global;

/// The relation of a number, on 16 to 64 points. The diagonal has the colour 0, and off it the
/// colour of (x, y) is 1, 2 or 3 and depends on y - x modulo the number of points alone.
pub fn demo_relation(alloc: Global, number: u32) -> Result<Colouring, NoMemory>
    ensures demo { IfOk result (λ relation. relation ≡ demo_relation_of number) }
    ensures raw { IfOk result (λ relation. IsRawColouring relation) }
{
    let size = size_of(number);
    let mut relation = Colouring::new(alloc, size, 0)?;
    for x in 0..size {
        for y in 0..size {
            relation.set(x, y, colour_of(number, x, y));
        }
    }
    Ok(relation)
}

// How many points the relation has.
fn size_of(number: u32) -> u32
    ensures { result ≡ demo_size number }
{
    16 + number % 49
}

// The colour of the pair (x, y).
fn colour_of(number: u32, x: u32, y: u32) -> u32
    requires row { x < demo_size number }
    requires column { y < demo_size number }
    ensures { result ≡ demo_colour number x y }
{
    if x == y {
        return 0;
    }
    let size = size_of(number);
    weight_of(number, (y + size - x) % size)
}

// The colour of the pairs (x, y) with this y - x modulo the number of points.
fn weight_of(number: u32, distance: u32) -> u32
    requires { distance < demo_size number }
    ensures { result ≡ demo_weight number distance }
{
    let size = size_of(number);
    let shift = number % size;
    1 + (distance * distance + shift * distance) % size % 3
}
