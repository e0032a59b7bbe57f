//! Whether the products of a table are associative, by generators (Light's test: Clifford and
//! Preston, The Algebraic Theory of Semigroups 1, 1961, section 1.2).
//!
//! The elements y with (x y) z = x (y z) for all x and z are closed under products. So an element that
//! is a product of tested ones need not be tested: of a group with n elements only the unit and at most
//! log2 n others are.

ghost use Rattle.std.specs.Prelude.{◌≡◌, ◌↔◌, ◌<◌, ◌≤◌, ℕ, IsTrue, length, slice_index};
ghost use Rattle.pair_colours.specs.Colouring.{colour_at};
ghost use Rattle.schur_rings.specs.Axioms.{AreMiddles, AreTested, Associates, IsAssociative, IsClosed, IsMiddle};

use pair_colours::{Colouring, MOST_POINTS};

// The products of x with each element.
fn row_of(table: &Colouring, x: u32) -> &[u32]
    requires { x < table.now.size }
    ensures len { length result.now ≡ table.now.size }
    ensures at { (y : ℕ) → y < table.now.size → slice_index result.now y ≡ colour_at table.now x y }
{
    let size = table.size();
    &table.colours()[(x * size) as usize..(x * size + size) as usize]
}

// Whether (x y) z is x (y z) for each z.
fn associates(table: &Colouring, x: u32, y: u32) -> bool
    requires closed { IsClosed table.now }
    requires left { x < table.now.size }
    requires right { y < table.now.size }
    ensures { IsTrue result ↔ Associates table.now x y }
{
    let by_product = row_of(table, table.get(x, y));
    let by_left = row_of(table, x);
    let by_right = row_of(table, y);
    for z in 0..by_right.len() {
        if by_product[z] != by_left[by_right[z] as usize] {
            return false;
        }
    }
    true
}

// Whether (x y) z is x (y z) for all x and z.
fn is_middle(table: &Colouring, y: u32) -> bool
    requires closed { IsClosed table.now }
    requires element { y < table.now.size }
    ensures { IsTrue result ↔ IsMiddle table.now y }
{
    for x in 0..table.size() {
        if !associates(table, x, y) {
            return false;
        }
    }
    true
}

// Marks the products of an element with the first tested ones, and says whether one was not marked.
fn mark_products(
    table: &Colouring,
    known: &mut [bool],
    tested: &[u32],
    count: usize,
    y: u32,
) -> bool
    requires closed { IsClosed table.now }
    requires marks { AreMiddles table.now known.old }
    requires len { count ≤ length tested.now }
    requires tested { AreTested table.now tested.now count }
    requires middle { IsMiddle table.now y }
    ensures { AreMiddles table.now known.new }
{
    let mut more = false;
    for i in 0..count {
        let product = table.get(y, tested[i]) as usize;
        if !known[product] {
            more = true;
        }
        known[product] = true;
    }
    more
}

// Marks the products of the marked elements with the first tested ones, in one pass, and says whether
// one was not marked.
fn spread_once(table: &Colouring, known: &mut [bool], tested: &[u32], count: usize) -> bool
    requires closed { IsClosed table.now }
    requires marks { AreMiddles table.now known.old }
    requires len { count ≤ length tested.now }
    requires tested { AreTested table.now tested.now count }
    ensures { AreMiddles table.now known.new }
{
    let mut more = false;
    for y in 0..table.size() {
        if known[y as usize] && mark_products(table, known, tested, count, y) {
            more = true;
        }
    }
    more
}

// Marks what is a product of the first tested elements.
fn spread(table: &Colouring, known: &mut [bool], tested: &[u32], count: usize)
    requires closed { IsClosed table.now }
    requires marks { AreMiddles table.now known.old }
    requires len { count ≤ length tested.now }
    requires tested { AreTested table.now tested.now count }
    ensures { AreMiddles table.now known.new }
{
    for _pass in 0..table.size() {
        if !spread_once(table, known, tested, count) {
            return;
        }
    }
}

// Whether the products are associative.
pub(crate) fn is_associative(table: &Colouring) -> bool
    requires { IsClosed table.now }
    ensures { IsTrue result ↔ IsAssociative table.now }
{
    let size = table.size();
    let mut known = [false; MOST_POINTS as usize];
    let mut tested = [0; MOST_POINTS as usize];
    let mut count = 0;
    for y in 0..size {
        if !known[y as usize] {
            if !is_middle(table, y) {
                return false;
            }
            known[y as usize] = true;
            tested[count] = y;
            count += 1;
            spread(table, &mut known, &tested, count);
        }
    }
    true
}
