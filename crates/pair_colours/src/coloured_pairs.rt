//! A colouring gives each ordered pair of points a number.

ghost use Rattle.std.specs.Prelude.{◌≡◌, ◌≢◌, ◌==◌, ℕ, ◌+◌, ◌*◌, ◌^◌, ◌++◌, ◌<◌, ◌≤◌, ◌↔◌, All, IsTrue, OnOk, IfOk, IfSome, IfNone, replicate, slice_get, slice_index, slice_set, length, flat_map};
ghost use Rattle.std.specs.List.{list_all};
ghost use Rattle.pair_colours.specs.Colouring.{FitsColouring, IsColour, Refines, colour_at};
ghost use Rattle.pair_colours.specs.Naming.{colours_met, named_of, rank_of, first_pair_of, transpose_of, IsNamedMeet};

use crate::naming_walk::pair_on_walk;
use crate::no_memory::NoMemory;
use crate::numbering::{determines, numbers_of, paired};
use indexmap::IndexSet;
use std::alloc::Global;
use std::marker::Model;

/// The most points of a colouring.
pub const MOST_POINTS: u32 = 256;

/// The greatest raw colour, the limit of a matrix text and of the edits.
pub const MOST_COLOUR: u32 = 1_048_575;

/// A colour for each ordered pair of the points below its size.
#[derive(Drop)]
pub struct Colouring {
    size: u32,
    colours: Vec<u32>,
}

impl Model for Colouring {
    ghost use Rattle.pair_colours.specs.Colouring.{PairColouring, FitsColouring};

    ghost Value = { PairColouring };

    ghost view = { λ c. record { size = c.size; colours = c.colours.items } };

    ghost invariant = { λ c. FitsColouring (record { size = c.size; colours = c.colours.items }) };
}

// Puts the numbers of a row at the end of a list.
fn put_row(numbers: &mut Vec<u32>, row: &[u32]) -> Result<(), NoMemory>
    ensures items { OnOk result (numbers.new.items ≡ numbers.old.items ++ row.now) }
    ensures small { OnOk result (All (λ number. number < 2 ^ 32) row.now) }
{
    numbers.extend_from_slice(row)?;
    Ok(())
}

// The rows as one list.
fn joined(alloc: Global, rows: &[&[u32]]) -> Result<Vec<u32>, NoMemory>
    ensures rows { IfOk result (λ numbers. numbers.items ≡ flat_map (λ row. row.now) rows.now) }
    ensures small { IfOk result (λ numbers. All (λ number. number < 2 ^ 32) numbers.items) }
{
    let mut numbers = Vec::new(alloc);
    for row in rows {
        put_row(&mut numbers, row)?;
    }
    Ok(numbers)
}

impl Colouring {
    /// Gives every pair the colour `fill`.
    pub fn new(alloc: Global, size: u32, fill: u32) -> Result<Colouring, NoMemory>
        requires has_points { 1 ≤ size }
        requires limit { size ≤ MOST_POINTS }
        ensures points { IfOk result (λ c. c.size ≡ size) }
        ensures filled { IfOk result (λ c. c.colours ≡ replicate (size * size) fill) }
    {
        let colours = vec![in alloc; fill; (size * size) as usize]?;
        Ok(Colouring { size, colours })
    }

    /// The colouring with these rows: row x has the colours of (x, 0), (x, 1) and so on. There are as
    /// many rows as points, each with a colour for every point.
    pub fn from_rows(alloc: Global, rows: &[&[u32]]) -> Result<Colouring, NoMemory>
        requires has_points { 1 ≤ length rows.now }
        requires limit { length rows.now ≤ MOST_POINTS }
        requires square { IsTrue (list_all (λ row. length row.now == length rows.now) rows.now) }
        ensures points { IfOk result (λ c. c.size ≡ length rows.now) }
        ensures rows { IfOk result (λ c. c.colours ≡ flat_map (λ row. row.now) rows.now) }
        ensures pairs { IfOk result (λ c. (x y : ℕ) → x < c.size → y < c.size
            → IfSome (slice_get rows.now x) (λ row. colour_at c x y ≡ slice_index row.now y)) }
    {
        let colours = joined(alloc, rows)?;
        Ok(Colouring {
            size: rows.len() as u32,
            colours,
        })
    }

    /// The number of points.
    pub fn size(&self) -> u32
        ensures points { result ≡ self.now.size }
        ensures within { FitsColouring self.now }
    {
        self.size
    }

    /// The colour of the pair (x, y).
    pub fn get(&self, x: u32, y: u32) -> u32
        requires row { x < self.now.size }
        requires column { y < self.now.size }
        ensures { result ≡ colour_at self.now x y }
    {
        self.colours[(x * self.size + y) as usize]
    }

    /// Gives the pair (x, y) another colour.
    pub fn set(&mut self, x: u32, y: u32, colour: u32)
        requires row { x < self.old.size }
        requires column { y < self.old.size }
        ensures points { self.new.size ≡ self.old.size }
        ensures changed { self.new.colours ≡ slice_set self.old.colours (x * self.old.size + y) colour }
        ensures pair { colour_at self.new x y ≡ colour }
        ensures others { (u v : ℕ) → u < self.old.size → v < self.old.size → (u ≡ x → v ≢ y) → colour_at self.new u v ≡ colour_at self.old u v }
    {
        let place = (x * self.size + y) as usize;
        self.colours[place] = colour;
    }

    /// An equal colouring.
    pub fn copy(&self, alloc: Global) -> Result<Colouring, NoMemory>
        ensures copy { IfOk result (λ c. c ≡ self.now) }
        ensures within { FitsColouring self.now }
    {
        let colours = Vec::from_slice(alloc, &self.colours)?;
        Ok(Colouring {
            size: self.size,
            colours,
        })
    }

    /// The colours of all pairs, row by row.
    pub fn colours(&self) -> &[u32]
        ensures colours { result.now ≡ self.now.colours }
        ensures within { FitsColouring self.now }
    {
        &self.colours
    }

    // The colours, in the order in which the walk meets them.
    fn colours_met(&self, alloc: Global) -> Result<IndexSet<u32>, NoMemory>
        ensures keys { IfOk result (λ met. met.keys ≡ colours_met self.now) }
        ensures few { IfOk result (λ met. length met.keys < 2 ^ 32) }
    {
        let mut met = IndexSet::new(alloc);
        for place in 0..self.size * self.size {
            let (x, y) = pair_on_walk(self.size, place);
            met.insert(self.get(x, y))?;
        }
        Ok(met)
    }

    /// The number of classes.
    pub fn rank(&self, alloc: Global) -> Result<u32, NoMemory>
        ensures { IfOk result (λ rank. rank ≡ rank_of self.now) }
    {
        let met = self.colours_met(alloc)?;
        Ok(met.len() as u32)
    }

    /// The same classes, numbered in the order in which the walk meets them.
    pub fn named(&self, alloc: Global) -> Result<Colouring, NoMemory>
        ensures { IfOk result (λ named. named ≡ named_of self.now) }
    {
        let met = self.colours_met(alloc)?;
        let mut colours = Vec::new(alloc);
        for colour in &self.colours {
            match met.get_index_of(colour) {
                Some(name) => colours.push(name as u32)?,
                None => unreachable!(),
            }
        }
        Ok(Colouring {
            size: self.size,
            colours,
        })
    }

    /// Whether this colouring refines the other: both have the same number of points, and pairs of
    /// one colour here have one colour there.
    pub fn refines(&self, alloc: Global, other: &Colouring) -> Result<bool, NoMemory>
        ensures { IfOk result (λ answer. IsTrue answer ↔ Refines self.now other.now) }
    {
        if self.size != other.size {
            return Ok(false);
        }
        determines(alloc, &self.colours, &other.colours)
    }

    /// The first pair of a colour in the naming walk, if there is one.
    pub fn first_pair(&self, colour: u32) -> Option<(u32, u32)>
        ensures first { result ≡ first_pair_of self.now colour }
        ensures points { IfSome result (λ p. (p.0 < self.now.size) × (p.1 < self.now.size)) }
        ensures colour { IfSome result (λ p. colour_at self.now p.0 p.1 ≡ colour) }
        ensures none { IfNone result (¬ IsColour self.now colour) }
    {
        for place in 0..self.size * self.size {
            let (x, y) = pair_on_walk(self.size, place);
            if self.get(x, y) == colour {
                return Some((x, y));
            }
        }
        None
    }

    /// The colour of the transpose of the first pair of a colour.
    pub fn transpose_of(&self, colour: u32) -> Option<u32>
        ensures turned { result ≡ transpose_of self.now colour }
        ensures some { IfSome result (λ _. IsColour self.now colour) }
        ensures none { IfNone result (¬ IsColour self.now colour) }
    {
        let (x, y) = self.first_pair(colour)?;
        Some(self.get(y, x))
    }

    /// The named colouring in which two pairs have one colour exactly where they have one in both
    /// colourings.
    pub fn meet(&self, alloc: Global, other: &Colouring) -> Result<Colouring, NoMemory>
        requires { self.now.size ≡ other.now.size }
        ensures { IfOk result (λ meet. IsNamedMeet self.now other.now meet) }
    {
        let codes = paired(alloc, &self.colours, &other.colours)?;
        let numbered = Colouring {
            size: self.size,
            colours: numbers_of(alloc, &codes)?,
        };
        numbered.named(alloc)
    }
}
