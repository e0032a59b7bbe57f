//! Whether a set of colours is closed, by the structure constants.

ghost use Rattle.std.specs.Prelude.{◌↔◌, ◌<◌, ◌≤◌, IsTrue};
ghost use Rattle.pair_colours.specs.ClosedSet.{IsClosedSet};
ghost use Rattle.pair_colours.specs.ColourSets.{is_in};
ghost use Rattle.pair_colours.specs.Naming.{rank_of};
ghost use Rattle.visitors.specs.Masks.{is_member, members_of};
ghost use Rattle.visitors.specs.declared.visitor.TheConstants.{MOST_SET_RANK};
ghost use Rattle.closed_subsets.specs.Closedness.{HasDiagonals, HasTransposes, HasProductsOf, HasProducts};
ghost use Rattle.closed_subsets.specs.Products.{AreProducts};

use crate::products::is_within;
use struct_consts::Constants;
use visitors::has_colour;

// Whether the set of a mask is closed.
pub(crate) fn is_closed(k: &Constants, table: &[u32], mask: u32) -> bool
    requires rank { rank_of k.now ≤ MOST_SET_RANK }
    requires table { AreProducts k.now table.now }
    ensures { IsTrue result ↔ IsClosedSet k.now (is_in (members_of (rank_of k.now) mask)) }
{
    let _rank = k.rank();
    if !has_diagonals(k, mask) {
        return false;
    }
    if !has_transposes(k, mask) {
        return false;
    }
    has_products(k, table, mask)
}

// Whether it has each diagonal class.
fn has_diagonals(k: &Constants, mask: u32) -> bool
    requires { rank_of k.now ≤ MOST_SET_RANK }
    ensures { IsTrue result ↔ HasDiagonals k.now (is_member mask) }
{
    for class in 0..k.rank() {
        let (x, y) = k.pair(class);
        if x == y && !has_colour(mask, class) {
            return false;
        }
    }
    true
}

// Whether it has the transpose of each of its classes.
fn has_transposes(k: &Constants, mask: u32) -> bool
    requires { rank_of k.now ≤ MOST_SET_RANK }
    ensures { IsTrue result ↔ HasTransposes k.now (is_member mask) }
{
    for class in 0..k.rank() {
        if has_colour(mask, class) && !has_colour(mask, k.transpose(class)) {
            return false;
        }
    }
    true
}

// Whether it has the product of each two of its classes.
fn has_products(k: &Constants, table: &[u32], mask: u32) -> bool
    requires rank { rank_of k.now ≤ MOST_SET_RANK }
    requires table { AreProducts k.now table.now }
    ensures { IsTrue result ↔ HasProducts k.now (is_member mask) }
{
    for class in 0..k.rank() {
        if has_colour(mask, class) && !has_products_of(k, table, class, mask) {
            return false;
        }
    }
    true
}

// Whether it has the products of class i and each of its classes.
fn has_products_of(k: &Constants, table: &[u32], i: u32, mask: u32) -> bool
    requires rank { rank_of k.now ≤ MOST_SET_RANK }
    requires table { AreProducts k.now table.now }
    requires class { i < rank_of k.now }
    ensures { IsTrue result ↔ HasProductsOf k.now i (is_member mask) }
{
    let rank = k.rank();
    for class in 0..rank {
        if has_colour(mask, class) && !is_within(table[(i * rank + class) as usize], mask) {
            return false;
        }
    }
    true
}
