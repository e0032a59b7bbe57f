//! The products of two classes, as masks.

ghost use Rattle.std.specs.Prelude.{◌≡◌, ◌↔◌, ◌<◌, ◌≤◌, ℕ, IsTrue, true, IfOk};
ghost use Rattle.pair_colours.specs.Naming.{rank_of};
ghost use Rattle.visitors.specs.Masks.{is_member, HasBits};
ghost use Rattle.visitors.specs.declared.visitor.TheConstants.{MOST_SET_RANK};
ghost use Rattle.closed_subsets.specs.Products.{is_product, AreProducts};

use pair_colours::NoMemory;
use std::alloc::Global;
use struct_consts::Constants;
use visitors::with_colour;

// The table of all products: at i * rank + j the classes k for which p(i, j; k) is not 0.
pub(crate) fn products_of(alloc: Global, k: &Constants) -> Result<Vec<u32>, NoMemory>
    requires { rank_of k.now ≤ MOST_SET_RANK }
    ensures { IfOk result (λ table. AreProducts k.now table.items) }
{
    let rank = k.rank();
    let mut table = Vec::with_capacity(alloc, (rank * rank) as usize)?;
    for place in 0..rank * rank {
        table.push(product_of(k, place / rank, place % rank))?;
    }
    Ok(table)
}

// The mask of the classes of the product of i and j.
fn product_of(k: &Constants, i: u32, j: u32) -> u32
    requires rank { rank_of k.now ≤ MOST_SET_RANK }
    requires left { i < rank_of k.now }
    requires right { j < rank_of k.now }
    ensures { HasBits (rank_of k.now) result (is_product k.now i j) }
{
    let mut mask = 0;
    for class in 0..k.rank() {
        if k.value(i, j, class) > 0 {
            mask = with_colour(mask, class);
        }
    }
    mask
}

// Whether each colour of a mask is one of another.
pub(crate) fn is_within(part: u32, whole: u32) -> bool
    ensures { IsTrue result ↔ ((c : ℕ) → c < 32 → is_member part c ≡ true → is_member whole c ≡ true) }
{
    part & whole == part
}
