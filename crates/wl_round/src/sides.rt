//! The pairs of a colouring with what compares them: short codes of what stands over each point.
//!
//! The code over z of a pair (x, y) is made of the short number of the colour from x to z among the
//! rows, times the number of points, and of that from z to y among the columns. Pairs whose rows
//! have one lead and whose columns have one lead have equal codes exactly for equal colours.

ghost use Rattle.std.specs.Prelude.{◌≡◌, ◌≢◌, ℕ, ◌+◌, ◌*◌, ◌/◌, ◌%◌, ◌<◌, ◌≤◌, IfOk, length, slice_index};
ghost use Rattle.std.specs.Bool.{OnTrue, OnFalse};
ghost use Rattle.wl_round.specs.RowCodes.{IsSquare};
ghost use Rattle.wl_round.specs.Sides.{AreOfOneKind, AreScaled, AreTables, colouring_of};

use crate::row_codes::row_codes;
use crate::transposing::transposed;
use pair_colours::{Colouring, NoMemory};
use std::alloc::Global;
use std::marker::Model;

// The short numbers times the size.
fn scaled(alloc: Global, size: u32, places: &[u8]) -> Result<Vec<u16>, NoMemory>
    requires limit { size ≤ 256 }
    requires len { length places.now ≡ size * size }
    requires low { (p : ℕ) → p < size * size → slice_index places.now p < size }
    ensures { IfOk result (λ lefts. AreScaled size places.now lefts.items) }
{
    let mut lefts = Vec::with_capacity(alloc, places.len())?;
    for p in 0..places.len() {
        lefts.push(places[p] as u16 * size as u16)?;
    }
    Ok(lefts)
}

// A pair of points.
#[derive(Clone, Copy)]
pub(crate) struct Pair {
    pub(crate) x: u32,
    pub(crate) y: u32,
}

// The classes of the pairs and of the transposed pairs, the leads of the rows and of the columns, and
// the short numbers: those of the rows times the number of points.
#[derive(Drop)]
pub(crate) struct Tables {
    pub(crate) size: u32,
    pub(crate) classes: Vec<u32>,
    pub(crate) turned: Vec<u32>,
    pub(crate) row_leads: Vec<u32>,
    pub(crate) column_leads: Vec<u32>,
    pub(crate) lefts: Vec<u16>,
    pub(crate) rights: Vec<u8>,
}

impl Tables {
    // The tables of a square matrix.
    fn of(alloc: Global, size: u32, class: &[u32]) -> Result<Tables, NoMemory>
        requires { IsSquare size class.now }
        ensures tables { IfOk result (λ tables. AreTables tables) }
        ensures size { IfOk result (λ tables. tables.size ≡ size) }
        ensures classes { IfOk result (λ tables. tables.classes.items ≡ class.now) }
    {
        let classes = Vec::from_slice(alloc, class)?;
        let turned = transposed(alloc, size, class)?;
        let rows = row_codes(alloc, size, class)?;
        let columns = row_codes(alloc, size, &turned)?;
        let lefts = scaled(alloc, size, &rows.places)?;
        Ok(Tables {
            size,
            classes,
            turned,
            row_leads: rows.leads,
            column_leads: columns.leads,
            lefts,
            rights: columns.places,
        })
    }

    // The pair at a place.
    pub(crate) fn pair_at(&self, p: u32) -> Pair
        requires tables { AreTables self.now }
        requires inside { p < self.now.size * self.now.size }
        ensures x { result.x ≡ p / self.now.size }
        ensures y { result.y ≡ p % self.now.size }
    {
        Pair {
            x: p / self.size,
            y: p % self.size,
        }
    }

    // The short numbers of the row from x, times the number of points.
    pub(crate) fn left(&self, x: u32) -> &[u16]
        requires tables { AreTables self.now }
        requires point { x < self.now.size }
        ensures len { length result.now ≡ self.now.size }
        ensures entries { (z : ℕ) → z < self.now.size → slice_index result.now z ≡ slice_index self.now.lefts.items (x * self.now.size + z) }
    {
        &self.lefts[(x * self.size) as usize..(x * self.size + self.size) as usize]
    }

    // The short numbers of the column to y.
    pub(crate) fn right(&self, y: u32) -> &[u8]
        requires tables { AreTables self.now }
        requires point { y < self.now.size }
        ensures len { length result.now ≡ self.now.size }
        ensures entries { (z : ℕ) → z < self.now.size → slice_index result.now z ≡ slice_index self.now.rights.items (y * self.now.size + z) }
    {
        &self.rights[(y * self.size) as usize..(y * self.size + self.size) as usize]
    }

    // Whether two pairs are both on the diagonal or both off it, of one colour, of one transposed
    // colour, and of rows and columns with the same leads.
    pub(crate) fn are_of_one_kind(&self, a: Pair, b: Pair) -> bool
        requires tables { AreTables self.now }
        requires first_x { a.x < self.now.size }
        requires first_y { a.y < self.now.size }
        requires x { b.x < self.now.size }
        requires y { b.y < self.now.size }
        ensures yes { OnTrue result (AreOfOneKind self.now a.x a.y b.x b.y) }
        ensures no { OnFalse result (¬ AreOfOneKind self.now a.x a.y b.x b.y) }
    {
        let p = (a.x * self.size + a.y) as usize;
        let q = (b.x * self.size + b.y) as usize;
        if self.classes[p] != self.classes[q] || self.turned[p] != self.turned[q] {
            return false;
        }
        if (a.x == a.y) != (b.x == b.y) {
            return false;
        }
        self.row_leads[a.x as usize] == self.row_leads[b.x as usize]
            && self.column_leads[a.y as usize] == self.column_leads[b.y as usize]
    }
}

// The pairs of a colouring, ready to be compared.
#[derive(Drop)]
pub(crate) struct Sides {
    tables: Tables,
}

impl Model for Sides {
    ghost use Rattle.pair_colours.specs.Colouring.{PairColouring};
    ghost use Rattle.wl_round.specs.Sides.{AreTables, colouring_of};

    ghost Value = { PairColouring };

    ghost view = { λ s. colouring_of s.tables };

    ghost invariant = { λ s. AreTables s.tables };
}

impl Sides {
    // Those of a colouring whose colours are below the number of pairs.
    pub(crate) fn of(alloc: Global, colouring: &Colouring) -> Result<Sides, NoMemory>
        requires { (p : ℕ) → p < length colouring.now.colours → slice_index colouring.now.colours p < length colouring.now.colours }
        ensures { IfOk result (λ sides. sides ≡ colouring.now) }
    {
        let tables = Tables::of(alloc, colouring.size(), colouring.colours())?;
        Ok(Sides { tables })
    }

    // The tables that compare the pairs.
    pub(crate) fn tables(&self) -> &Tables
        ensures tables { AreTables result.now }
        ensures colouring { colouring_of result.now ≡ self.now }
    {
        &self.tables
    }
}
