//! The products of two configurations.

ghost use Rattle.std.specs.Prelude.{◌≡◌, ◌↔◌, ◌<◌, ◌≤◌, ◌*◌, ℕ, IsTrue, IfOk, IsErrOf};
ghost use Rattle.pair_colours.specs.declared.coloured_pairs.TheConstants.{MOST_POINTS};
ghost use Rattle.pair_colours.specs.Closure.{Coherent};
ghost use Rattle.products.specs.declared.multiplying.ProductFault.TheVariants.{NoMemory as fault_no_memory};
ghost use Rattle.pair_colours.specs.Fibres.{HasOneFibre};
ghost use Rattle.products.specs.Product.{DirectProduct, WreathProduct, IsNamedLabelling};
ghost use Rattle.products.specs.Steps.{label_of};

use crate::labelling::{ProductKind, labels};
use pair_colours::{Colouring, MOST_POINTS, NoMemory, has_one_fibre};
use std::alloc::Global;

/// Why there is no product.
#[derive(Clone, Copy, Debug, PartialEq, Eq)]
pub enum ProductFault {
    /// The product of the sizes is above the limit of points.
    TooManyPoints,
    /// A factor has more than one fibre: two diagonal pairs have different colours.
    NotHomogeneous,
    /// There is not enough memory.
    NoMemory,
}

impl From<NoMemory> for ProductFault {
    ghost from_gives = { λ _ fault. fault ≡ fault_no_memory };

    fn from(_error: NoMemory) -> ProductFault {
        ProductFault::NoMemory
    }
}

/// The direct product. Two pairs are alike where their colours in `a` and their colours in `b`
/// agree. Too many points are found before memory is taken.
pub fn direct(alloc: Global, a: &Colouring, b: &Colouring) -> Result<Colouring, ProductFault>
    requires left { Coherent a.now }
    requires right { Coherent b.now }
    ensures product { IfOk result (λ p. DirectProduct a.now b.now p) }
    ensures coherent { IfOk result (λ p. Coherent p) }
    ensures many { IsErrOf result ProductFault.TooManyPoints ↔ (MOST_POINTS < a.now.size * b.now.size) }
    ensures fibres { ¬ IsErrOf result ProductFault.NotHomogeneous }
{
    if a.size() * b.size() > MOST_POINTS {
        return Err(ProductFault::TooManyPoints);
    }
    Ok(multiplied(alloc, a, b, ProductKind::Direct)?)
}

/// The wreath product. Two pairs of points (x, u) and (y, v) are alike where both have u = v and
/// their colours in `a` agree, or neither has and their colours in `b` agree. Too many points are
/// found first, and both refusals before memory is taken.
pub fn wreath(alloc: Global, a: &Colouring, b: &Colouring) -> Result<Colouring, ProductFault>
    requires left { Coherent a.now }
    requires right { Coherent b.now }
    ensures product { IfOk result (λ p. WreathProduct a.now b.now p) }
    ensures coherent { IfOk result (λ p. Coherent p) }
    ensures many { IsErrOf result ProductFault.TooManyPoints ↔ (MOST_POINTS < a.now.size * b.now.size) }
    ensures fibres { IsErrOf result ProductFault.NotHomogeneous
        ↔ ((a.now.size * b.now.size ≤ MOST_POINTS) × ¬ (HasOneFibre a.now × HasOneFibre b.now)) }
{
    if a.size() * b.size() > MOST_POINTS {
        return Err(ProductFault::TooManyPoints);
    }
    if !has_one_fibre(a) || !has_one_fibre(b) {
        return Err(ProductFault::NotHomogeneous);
    }
    Ok(multiplied(alloc, a, b, ProductKind::Wreath)?)
}

// The product of this kind.
pub(crate) fn multiplied(
    alloc: Global,
    a: &Colouring,
    b: &Colouring,
    kind: ProductKind,
) -> Result<Colouring, NoMemory>
    requires { a.now.size * b.now.size ≤ MOST_POINTS }
    ensures { IfOk result (IsNamedLabelling (a.now.size * b.now.size) (label_of kind a.now b.now)) }
{
    let (first, second) = labels(alloc, a, b, kind)?;
    first.meet(alloc, &second)
}
