//! The quotient and the subscheme of a closed set that is known by the least points of its classes.

ghost use Rattle.std.specs.Prelude.{◌≡◌, ◌<◌, ◌≤◌, IfOk, All, length};
ghost use Rattle.pair_colours.specs.declared.coloured_pairs.TheConstants.{MOST_POINTS};
ghost use Rattle.quotients.specs.Steps.{HasClasses, IsNamedPart, IsDivided, IsCutOut};

use crate::classes::{first_points, points_with};
use crate::meeting::least_met;
use crate::picking::picked;
use pair_colours::{Colouring, NoMemory};
use std::alloc::Global;

// The naming of the colouring on some of its points.
fn named_part(alloc: Global, k: &Colouring, points: &[u32]) -> Result<Colouring, NoMemory>
    requires has_points { 1 ≤ length points.now }
    requires limit { length points.now ≤ MOST_POINTS }
    requires points { All (λ point. point < k.now.size) points.now }
    ensures { IfOk result (IsNamedPart k.now points.now) }
{
    picked(alloc, k, points)?.named(alloc)
}

// The quotient.
pub(crate) fn divided(alloc: Global, k: &Colouring, leasts: &[u32]) -> Result<Colouring, NoMemory>
    requires { HasClasses k.now leasts.now }
    ensures { IfOk result (IsDivided k.now leasts.now) }
{
    let met = least_met(alloc, k, leasts)?;
    let firsts = first_points(alloc, leasts)?;
    named_part(alloc, &met, &firsts)
}

// The subscheme on the class of x.
pub(crate) fn cut_out(
    alloc: Global,
    k: &Colouring,
    leasts: &[u32],
    x: u32,
) -> Result<Colouring, NoMemory>
    requires point { x < k.now.size }
    requires classes { HasClasses k.now leasts.now }
    ensures { IfOk result (IsCutOut k.now leasts.now x) }
{
    let members = points_with(alloc, leasts, leasts[x as usize])?;
    named_part(alloc, k, &members)
}
