//! The classes of a closed subset.

ghost use Rattle.std.specs.Prelude.{◌≡◌, ◌==◌, ◌↔◌, ◌<◌, ◌^◌, ℕ, IsTrue, IfOk, map, filter, length, slice_index};
ghost use Rattle.pair_colours.specs.Colouring.{FitsColouring, colour_at, points};
ghost use Rattle.pair_colours.specs.ColourSets.{is_in};
ghost use Rattle.pair_colours.specs.ClosedSet.{IsClosedSet};
ghost use Rattle.quotients.specs.Quotient.{least_of};
ghost use Rattle.quotients.specs.Steps.{AreLeasts};

use pair_colours::{ColourSet, Colouring, NoMemory};
use std::alloc::Global;

// The least point of the class of x, or the size where the class has no point.
fn least_of(k: &Colouring, members: &ColourSet, x: u32) -> u32
    requires { x < k.now.size }
    ensures { result ≡ least_of k.now (is_in members.now) x }
{
    for y in 0..k.size() {
        if members.has_pair(k, x, y) {
            return y;
        }
    }
    k.size()
}

// The least point of the class of each point.
pub(crate) fn least_points(
    alloc: Global,
    k: &Colouring,
    members: &ColourSet,
) -> Result<Vec<u32>, NoMemory>
    ensures leasts { IfOk result (λ leasts. AreLeasts k.now (is_in members.now) leasts.items) }
    ensures within { FitsColouring k.now }
{
    let mut leasts = Vec::new(alloc);
    for x in 0..k.size() {
        leasts.push(least_of(k, members, x))?;
    }
    Ok(leasts)
}

// Whether the points that x is paired with by a member are those with its least point.
fn is_class_at(k: &Colouring, members: &ColourSet, leasts: &[u32], x: u32) -> bool
    requires len { length leasts.now ≡ k.now.size }
    requires row { x < k.now.size }
    ensures { IsTrue result ↔ ((y : ℕ) → y < k.now.size
        → is_in members.now (colour_at k.now x y) ≡ (slice_index leasts.now x == slice_index leasts.now y)) }
{
    for y in 0..k.size() {
        if members.has_pair(k, x, y) != (leasts[x as usize] == leasts[y as usize]) {
            return false;
        }
    }
    true
}

// Whether the pairs with a colour in the set form an equivalence relation.
pub(crate) fn is_closed(k: &Colouring, members: &ColourSet, leasts: &[u32]) -> bool
    requires { AreLeasts k.now (is_in members.now) leasts.now }
    ensures { IsTrue result ↔ IsClosedSet k.now (is_in members.now) }
{
    for x in 0..k.size() {
        if !is_class_at(k, members, leasts, x) {
            return false;
        }
    }
    true
}

// The points with this least point, rising.
pub(crate) fn points_with(alloc: Global, leasts: &[u32], least: u32) -> Result<Vec<u32>, NoMemory>
    requires { length leasts.now < 2 ^ 32 }
    ensures { IfOk result (λ found. found.items ≡ filter (λ y. slice_index leasts.now y == least) (points (length leasts.now))) }
{
    let mut found = Vec::new(alloc);
    for y in 0..leasts.len() {
        if leasts[y] == least {
            found.push(y as u32)?;
        }
    }
    Ok(found)
}

// The points that are their own least points, rising.
pub(crate) fn first_points(alloc: Global, leasts: &[u32]) -> Result<Vec<u32>, NoMemory>
    requires { length leasts.now < 2 ^ 32 }
    ensures { IfOk result (λ found. found.items ≡ filter (λ y. slice_index leasts.now y == y) (points (length leasts.now))) }
{
    let mut found = Vec::new(alloc);
    for y in 0..leasts.len() {
        if leasts[y] as usize == y {
            found.push(y as u32)?;
        }
    }
    Ok(found)
}
