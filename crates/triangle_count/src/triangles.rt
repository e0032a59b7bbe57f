//! The triangle numbers of a pair of points.

ghost use Rattle.std.specs.Prelude.{◌≡◌, ◌==◌, ◌&&◌, ◌<◌, IfOk};
ghost use Rattle.pair_colours.specs.Colouring.{colour_at, triangles};
ghost use Rattle.triangle_count.specs.Row.{IsRowAt};

use crate::rows::Row;
use crate::runs::runs;
use pair_colours::{Colouring, NoMemory, side_codes};
use std::alloc::Global;

/// How many points z have the colour `left` from x to z and the colour `right` from z to y.
pub fn count(c: &Colouring, x: u32, y: u32, left: u32, right: u32) -> u32
    requires row { x < c.now.size }
    requires column { y < c.now.size }
    ensures { result ≡ triangles c.now x y left right }
{
    let mut count = 0;
    for z in 0..c.size() {
        if has_sides(c, x, y, z, left, right) {
            count += 1;
        }
    }
    count
}

// Whether the triangle over (x, y) with the third point z has these two colours.
fn has_sides(c: &Colouring, x: u32, y: u32, z: u32, left: u32, right: u32) -> bool
    requires row { x < c.now.size }
    requires column { y < c.now.size }
    requires point { z < c.now.size }
    ensures { result ≡ ((colour_at c.now x z == left) && (colour_at c.now z y == right)) }
{
    c.get(x, z) == left && c.get(z, y) == right
}

/// All triangle numbers of the pair (x, y) that are not 0.
pub fn row_at(alloc: Global, c: &Colouring, x: u32, y: u32) -> Result<Row, NoMemory>
    requires row { x < c.now.size }
    requires column { y < c.now.size }
    ensures { IfOk result (λ row. IsRowAt c.now x y row) }
{
    let mut codes = side_codes(alloc, c, x, y)?;
    codes.sort_unstable();
    runs(alloc, &codes)
}
