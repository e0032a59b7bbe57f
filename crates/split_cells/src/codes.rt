//! Short numbers of classes, by which the rows from two points are compared.
//!
//! A fibre is a class of diagonal pairs. Where the pairs of a class all come from points of one
//! fibre, a class is told, among those from a fibre, by a place where it stands in the row from the
//! first point of the fibre. Two such places, one of them times the number of points, have a sum
//! that tells both: a code.

ghost use Rattle.std.specs.Prelude.{◌≡◌, ℕ, ◌+◌, ◌*◌, ◌<◌, ◌≤◌, IfOk, IfSome, IfNone, length, slice_index};
ghost use Rattle.split_cells.specs.Segments.{class_at};
ghost use Rattle.split_cells.specs.Grids.{IsUsed};
ghost use Rattle.split_cells.specs.Pairs.{IsClassed, fibre_of, lead_of, partition_of};
ghost use Rattle.split_cells.specs.Faults.{HasHomes, IsSettled, SplitsTwo};
ghost use Rattle.split_cells.specs.Codes.{IsCodeTable, IsCoded, IsCodedTo, IsShort, IsShortened};

use crate::classed_pairs::ClassedPairs;
use pair_colours::{MOST_POINTS, NoMemory};
use std::alloc::Global;
use trace_text::Step;

// The short number of the class of each pair: times the number of points, and as it is.
#[derive(Drop)]
pub(crate) struct Codes {
    pub(crate) lefts: Vec<u16>,
    pub(crate) rights: Vec<u8>,
}

impl Codes {
    // A table without short numbers yet.
    pub(crate) fn new(alloc: Global, size: u32) -> Result<Codes, NoMemory>
        requires { size ≤ MOST_POINTS }
        ensures { IfOk result (λ codes. IsCodeTable size codes) }
    {
        let lefts = vec![in alloc; 0; (size * size) as usize]?;
        let rights = vec![in alloc; 0; (size * size) as usize]?;
        Ok(Codes { lefts, rights })
    }

    // The short numbers of the row from x, times the number of points.
    pub(crate) fn left(&self, size: u32, x: u32) -> &[u16]
        requires table { IsCodeTable size self.now }
        requires point { x < size }
        requires small { size ≤ MOST_POINTS }
        ensures len { length result.now ≡ size }
        ensures entries { (z : ℕ) → z < size → slice_index result.now z ≡ slice_index self.now.lefts.items (x * size + z) }
    {
        &self.lefts[(x * size) as usize..(x * size + size) as usize]
    }

    // The short numbers of the row from y.
    pub(crate) fn right(&self, size: u32, y: u32) -> &[u8]
        requires table { IsCodeTable size self.now }
        requires point { y < size }
        requires small { size ≤ MOST_POINTS }
        ensures len { length result.now ≡ size }
        ensures entries { (z : ℕ) → z < size → slice_index result.now z ≡ slice_index self.now.rights.items (y * size + z) }
    {
        &self.rights[(y * size) as usize..(y * size + size) as usize]
    }
}

// The first point of the fibre of x.
fn lead(pairs: &ClassedPairs, x: u32) -> u32
    requires classed { IsClassed pairs.now }
    requires used { IsUsed pairs.now.parting.class.items pairs.now.parting.rank }
    requires point { x < pairs.now.size }
    ensures lead { result ≡ lead_of pairs.now (fibre_of pairs.now x) }
    ensures inside { result < pairs.now.size }
{
    let fibre = pairs.row(x)[x as usize];
    pairs.size.first(pairs.parting.first(fibre))
}

// Gives each class in the row from x a place where it stands there.
fn shorten(pairs: &ClassedPairs, short: &mut [u16], x: u32)
    requires classed { IsClassed pairs.now }
    requires point { x < pairs.now.size }
    requires len { length short.old ≡ pairs.now.parting.rank }
    ensures { IsShortened pairs.now x short.old short.new }
{
    let row = pairs.row(x);
    for z in 0..row.len() {
        short[row[z] as usize] = z as u16;
    }
}

// Gives each class in the row from the first point of a fibre a place where it stands there.
pub(crate) fn short_numbers(pairs: &ClassedPairs, short: &mut [u16])
    requires classed { IsClassed pairs.now }
    requires used { IsUsed pairs.now.parting.class.items pairs.now.parting.rank }
    requires homes { HasHomes (partition_of pairs.now) }
    requires len { length short.old ≡ pairs.now.parting.rank }
    requires blank { (k : ℕ) → slice_index short.old k ≡ 0 }
    ensures { IsShort pairs.now short.new }
{
    for x in 0..pairs.size.points() {
        if lead(pairs, x) == x {
            shorten(pairs, short, x);
        }
    }
}

// Writes the short numbers of the row from x. If a class in it has none, a step that parts x from
// the first point of its fibre.
fn code_row(pairs: &ClassedPairs, short: &[u16], codes: &mut Codes, x: u32) -> Option<Step>
    requires classed { IsClassed pairs.now }
    requires used { IsUsed pairs.now.parting.class.items pairs.now.parting.rank }
    requires settled { IsSettled (partition_of pairs.now) }
    requires len { length short.now ≡ pairs.now.parting.rank }
    requires short { IsShort pairs.now short.now }
    requires point { x < pairs.now.size }
    requires coded { IsCodedTo pairs.now short.now (x * pairs.now.size) codes.old }
    ensures some { IfSome result (λ step. SplitsTwo (partition_of pairs.now) pairs.now.parting.rank step) }
    ensures none { IfNone result (IsCodedTo pairs.now short.now ((x + 1) * pairs.now.size) codes.new) }
{
    let size = pairs.size.points();
    let row = pairs.row(x);
    let first = pairs.row(lead(pairs, x));
    for z in 0..size {
        let class = row[z as usize];
        let number = short[class as usize];
        if first[number as usize] != class {
            return Some(Step::Tri {
                class: row[x as usize],
                left: class,
                right: pairs.column(x)[z as usize],
            });
        }
        codes.lefts[(x * size + z) as usize] = number * size as u16;
        codes.rights[(x * size + z) as usize] = number as u8;
    }
    None
}

// Writes the short numbers of all rows, or else gives a step that is not idle.
pub(crate) fn code_rows(pairs: &ClassedPairs, short: &[u16], codes: &mut Codes) -> Option<Step>
    requires classed { IsClassed pairs.now }
    requires used { IsUsed pairs.now.parting.class.items pairs.now.parting.rank }
    requires settled { IsSettled (partition_of pairs.now) }
    requires len { length short.now ≡ pairs.now.parting.rank }
    requires short { IsShort pairs.now short.now }
    requires table { IsCodeTable pairs.now.size codes.old }
    ensures some { IfSome result (λ step. SplitsTwo (partition_of pairs.now) pairs.now.parting.rank step) }
    ensures none { IfNone result (IsCoded (partition_of pairs.now) codes.new) }
{
    for x in 0..pairs.size.points() {
        if let Some(step) = code_row(pairs, short, codes, x) {
            return Some(step);
        }
    }
    None
}
