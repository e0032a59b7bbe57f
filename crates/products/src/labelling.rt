//! The labels of the pairs of a product.

ghost use Rattle.std.specs.Prelude.{◌≡◌, ◌<◌, ◌≤◌, ◌*◌, IfOk};
ghost use Rattle.pair_colours.specs.declared.coloured_pairs.TheConstants.{MOST_POINTS};
ghost use Rattle.products.specs.Steps.{AreParts, label_of};

use pair_colours::{Colouring, NoMemory};
use std::alloc::Global;

// The two kinds of products.
#[derive(Clone, Copy)]
pub(crate) enum ProductKind {
    Direct,
    Wreath,
}

// The label of the pair (p, q).
fn label(a: &Colouring, b: &Colouring, kind: ProductKind, p: u32, q: u32) -> (u32, u32)
    requires row { p < a.now.size * b.now.size }
    requires column { q < a.now.size * b.now.size }
    ensures { result ≡ label_of kind a.now b.now p q }
{
    let size = b.size();
    let (x, u) = (p / size, p % size);
    let (y, v) = (q / size, q % size);
    match kind {
        ProductKind::Direct => (a.get(x, y), b.get(u, v)),
        ProductKind::Wreath if u == v => (0, a.get(x, y)),
        ProductKind::Wreath => (1, b.get(u, v)),
    }
}

// The labels of all pairs, their first parts and their second parts.
pub(crate) fn labels(
    alloc: Global,
    a: &Colouring,
    b: &Colouring,
    kind: ProductKind,
) -> Result<(Colouring, Colouring), NoMemory>
    requires { a.now.size * b.now.size ≤ MOST_POINTS }
    ensures { IfOk result (λ parts. AreParts (a.now.size * b.now.size) (label_of kind a.now b.now) parts.0 parts.1) }
{
    let size = a.size() * b.size();
    let mut first = Colouring::new(alloc, size, 0)?;
    let mut second = Colouring::new(alloc, size, 0)?;
    for p in 0..size {
        for q in 0..size {
            let parts = label(a, b, kind, p, q);
            first.set(p, q, parts.0);
            second.set(p, q, parts.1);
        }
    }
    Ok((first, second))
}
