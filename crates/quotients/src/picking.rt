//! Colourings on some of their points.

ghost use Rattle.std.specs.Prelude.{◌≡◌, ◌<◌, ◌≤◌, IfOk, All, length};
ghost use Rattle.pair_colours.specs.declared.coloured_pairs.TheConstants.{MOST_POINTS};
ghost use Rattle.quotients.specs.Steps.{IsPicked};

use pair_colours::{Colouring, NoMemory};
use std::alloc::Global;

// The colouring on these points, in their order.
pub(crate) fn picked(alloc: Global, k: &Colouring, points: &[u32]) -> Result<Colouring, NoMemory>
    requires has_points { 1 ≤ length points.now }
    requires limit { length points.now ≤ MOST_POINTS }
    requires points { All (λ point. point < k.now.size) points.now }
    ensures { IfOk result (IsPicked k.now points.now) }
{
    let size = points.len() as u32;
    let mut part = Colouring::new(alloc, size, 0)?;
    for s in 0..size {
        for t in 0..size {
            part.set(s, t, k.get(points[s as usize], points[t as usize]));
        }
    }
    let kept = part.size();
    prove!(kept == size);
    Ok(part)
}
