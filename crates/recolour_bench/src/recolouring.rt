//! The colouring that an edit makes.

ghost use Rattle.std.specs.Prelude.{◌≡◌, ◌==◌, ◌||◌, ◌<◌, ◌≤◌, ◌+◌, ◌*◌, ℕ, true, false, not, position, IfOk, length, slice_index_or, if◌then◌else◌};
ghost use Rattle.pair_colours.specs.declared.coloured_pairs.TheConstants.{MOST_POINTS};
ghost use Rattle.pair_colours.specs.Colouring.{FitsColouring, colour_at};
ghost use Rattle.pair_colours.specs.Closure.{Coherent, IsClosureOf};
ghost use Rattle.pair_colours.specs.Tests.{first_that_holds};
ghost use Rattle.pair_colours.specs.Fibres.{HasOneFibre};
ghost use Rattle.products.specs.Product.{DirectProduct, WreathProduct};
ghost use Rattle.struct_consts.specs.ClassData.{HasColoursBelow};
ghost use Rattle.colour_wl.specs.Fusions.{merge};
ghost use Rattle.recolour_bench.specs.Edits.{edit_of, factor_of, makes_closure};
ghost use Rattle.recolour_bench.specs.Steps.{edit_tests};
ghost use Rattle.recolour_bench.specs.Recolouring.{IsLeastUnused, has_colour, is_pair, least_unused, recoloured, IsEdited};

use crate::edits::Edit;
use pair_colours::{Colouring, NoMemory};
use products::{ProductFault, direct, wreath};
use std::alloc::Global;

// Which of the numbers up to the number of pairs are the colour of a pair.
fn used_numbers(alloc: Global, colouring: &Colouring) -> Result<Vec<bool>, NoMemory>
    ensures len { IfOk result (λ used. length used.items ≡ colouring.now.size * colouring.now.size + 1) }
    ensures used { IfOk result (λ used. (number : ℕ) → number < length used.items → slice_index_or used.items number false ≡ has_colour colouring.now number) }
    ensures within { FitsColouring colouring.now }
{
    let size = colouring.size();
    let mut used = vec![in alloc; false; (size * size + 1) as usize]?;
    for x in 0..size {
        for y in 0..size {
            let colour = colouring.get(x, y) as usize;
            if colour < used.len() {
                used[colour] = true;
            }
        }
    }
    Ok(used)
}

// The place of the first flag that is not set.
fn first_unset(flags: &[bool]) -> Option<usize>
    ensures { result ≡ position not flags.now }
{
    flags.iter().position(|flag| !*flag)
}

// The least number that no pair has: there are more numbers up to the number of pairs than pairs.
fn unused_number(alloc: Global, colouring: &Colouring) -> Result<u32, NoMemory>
    ensures number { IfOk result (λ number. number ≡ least_unused colouring.now) }
    ensures least { IfOk result (IsLeastUnused colouring.now) }
{
    let used = used_numbers(alloc, colouring)?;
    match first_unset(&used) {
        Some(number) => Ok(number as u32),
        None => unreachable!(),
    }
}

// The colouring with another colour for the pair (x, y).
fn with_pair(
    alloc: Global,
    colouring: &Colouring,
    x: u32,
    y: u32,
    colour: u32,
) -> Result<Colouring, NoMemory>
    requires row { x < colouring.now.size }
    requires column { y < colouring.now.size }
    ensures { IfOk result (λ next. next ≡ recoloured colouring.now (λ u v. if is_pair x y u v then colour else colour_at colouring.now u v)) }
{
    let mut next = colouring.copy(alloc)?;
    next.set(x, y, colour);
    Ok(next)
}

// The colouring with another colour for the pairs (x, y) and (y, x).
fn with_both(
    alloc: Global,
    colouring: &Colouring,
    x: u32,
    y: u32,
    colour: u32,
) -> Result<Colouring, NoMemory>
    requires row { x < colouring.now.size }
    requires column { y < colouring.now.size }
    ensures { IfOk result (λ next. next ≡ recoloured colouring.now (λ u v. if is_pair x y u v || is_pair y x u v then colour else colour_at colouring.now u v)) }
{
    let mut next = colouring.copy(alloc)?;
    next.set(x, y, colour);
    next.set(y, x, colour);
    Ok(next)
}

// The colouring with the least number that no pair has for the pair (x, x).
fn with_fixed(alloc: Global, colouring: &Colouring, x: u32) -> Result<Colouring, NoMemory>
    requires { x < colouring.now.size }
    ensures { IfOk result (λ next. next ≡ recoloured colouring.now (λ u v. if is_pair x x u v then least_unused colouring.now else colour_at colouring.now u v)) }
{
    let colour = unused_number(alloc, colouring)?;
    with_pair(alloc, colouring, x, x, colour)
}

// The colouring with the colour `keep` for each pair of the colour `gone`.
fn joined(alloc: Global, colouring: &Colouring, keep: u32, gone: u32) -> Result<Colouring, NoMemory>
    ensures { IfOk result (λ next. next ≡ recoloured colouring.now (λ u v. if colour_at colouring.now u v == gone then keep else colour_at colouring.now u v)) }
{
    let size = colouring.size();
    let mut next = colouring.copy(alloc)?;
    for x in 0..size {
        for y in 0..size {
            if next.get(x, y) == gone {
                next.set(x, y, keep);
            }
        }
    }
    Ok(next)
}

// The colouring with the colour string[c] for each pair of the colour c.
fn merged(alloc: Global, colouring: &Colouring, string: &[u32]) -> Result<Colouring, NoMemory>
    requires { HasColoursBelow colouring.now (length string.now) }
    ensures { IfOk result (λ next. next ≡ merge colouring.now string.now) }
{
    let size = colouring.size();
    let mut next = colouring.copy(alloc)?;
    for x in 0..size {
        for y in 0..size {
            let colour = colouring.get(x, y) as usize;
            next.set(x, y, string[colour]);
        }
    }
    Ok(next)
}

// The direct product of two configurations.
fn with_direct(alloc: Global, a: &Colouring, b: &Colouring) -> Result<Colouring, NoMemory>
    requires left { Coherent a.now }
    requires right { Coherent b.now }
    requires few { a.now.size * b.now.size ≤ MOST_POINTS }
    ensures product { IfOk result (λ p. DirectProduct a.now b.now p) }
    ensures coherent { IfOk result (λ p. Coherent p) }
{
    match direct(alloc, a, b) {
        Ok(product) => Ok(product),
        Err(ProductFault::NoMemory) => Err(NoMemory),
        Err(_) => unreachable!(),
    }
}

// The wreath product of two configurations with one fibre each.
fn with_wreath(alloc: Global, a: &Colouring, b: &Colouring) -> Result<Colouring, NoMemory>
    requires left { Coherent a.now }
    requires right { Coherent b.now }
    requires few { a.now.size * b.now.size ≤ MOST_POINTS }
    requires left_fibre { HasOneFibre a.now }
    requires right_fibre { HasOneFibre b.now }
    ensures product { IfOk result (λ p. WreathProduct a.now b.now p) }
    ensures coherent { IfOk result (λ p. Coherent p) }
{
    match wreath(alloc, a, b) {
        Ok(product) => Ok(product),
        Err(ProductFault::NoMemory) => Err(NoMemory),
        Err(_) => unreachable!(),
    }
}

// What the edit makes of a colouring with its closure and that of the second factor of a product.
pub(crate) fn edited_by(
    alloc: Global,
    raw: &Colouring,
    closure: &Colouring,
    factor: &Colouring,
    edit: &Edit,
) -> Result<Colouring, NoMemory>
    requires own { first_that_holds (edit_tests raw.now closure.now factor.now (edit_of edit.now)) ≡ None }
    requires closure { IsClosureOf closure.now raw.now }
    requires factor { IsClosureOf factor.now (factor_of raw.now (edit_of edit.now)) }
    ensures edited { IfOk result (IsEdited raw.now closure.now factor.now (edit_of edit.now)) }
    ensures closed { IfOk result (λ next. makes_closure (edit_of edit.now) ≡ true → IsClosureOf next next) }
{
    // What is known of the size is kept as a fact about the closure.
    let _points = closure.size();
    match *edit {
        Edit::Set { x, y, colour } => with_pair(alloc, raw, x, y, colour),
        Edit::Both { x, y, colour } => with_both(alloc, raw, x, y, colour),
        Edit::Fix { x } => with_fixed(alloc, raw, x),
        Edit::Join { keep, gone } => joined(alloc, raw, keep, gone),
        Edit::Adopt => closure.copy(alloc),
        Edit::Fuse { string } => merged(alloc, closure, string),
        Edit::Direct { .. } => with_direct(alloc, closure, factor),
        Edit::Wreath { .. } => with_wreath(alloc, closure, factor),
    }
}
