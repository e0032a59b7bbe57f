//! Short numbers for the classes in the rows of a square matrix.
//!
//! Row x of a matrix of n rows has the places from x * n on. Its lead is the first row in which each
//! class of row x stands, at the latest x itself. A class of row x is told by the first place where
//! it stands in the row of the lead. So among rows of one lead equal numbers mean equal classes.

ghost use Rattle.std.specs.Prelude.{◌≡◌, ◌≢◌, ℕ, ◌+◌, ◌*◌, ◌<◌, ◌≤◌, IfOk, length, slice_index};
ghost use Rattle.std.specs.Bool.{OnTrue, OnFalse};
ghost use Rattle.wl_round.specs.RowCodes.{Covers, IsRowCode, IsRowTried, IsRowWritten, IsShort, IsSquare};

use pair_colours::NoMemory;
use std::alloc::Global;

// The lead of each row, and the number of the class at each place.
#[derive(Drop)]
pub(crate) struct RowCodes {
    pub(crate) leads: Vec<u32>,
    pub(crate) places: Vec<u8>,
}

// Row x of a matrix.
fn row_of(size: u32, class: &[u32], x: u32) -> &[u32]
    requires square { IsSquare size class.now }
    requires row { x < size }
    ensures len { length result.now ≡ size }
    ensures entries { (z : ℕ) → z < size → slice_index result.now z ≡ slice_index class.now (x * size + z) }
{
    &class[(x * size) as usize..(x * size + size) as usize]
}

// Notes for each class in row a the first place where it stands there.
fn note_places(size: u32, class: &[u32], a: u32, short: &mut [u8])
    requires square { IsSquare size class.now }
    requires row { a < size }
    requires len { length short.old ≡ size * size }
    requires low { (k : ℕ) → slice_index short.old k < size }
    ensures { IsShort size class.now a short.new }
{
    let row = row_of(size, class, a);
    for z in (0..row.len()).rev() {
        short[row[z] as usize] = z as u8;
    }
}

// Whether each class in row x stands in row a.
fn covers(size: u32, class: &[u32], short: &[u8], a: u32, x: u32) -> bool
    requires square { IsSquare size class.now }
    requires lead { a < size }
    requires row { x < size }
    requires len { length short.now ≡ size * size }
    requires short { IsShort size class.now a short.now }
    ensures yes { OnTrue result (Covers size class.now a x) }
    ensures no { OnFalse result (¬ Covers size class.now a x) }
{
    let lead = row_of(size, class, a);
    let row = row_of(size, class, x);
    for z in 0..row.len() {
        let k = row[z];
        if lead[short[k as usize] as usize] != k {
            return false;
        }
    }
    true
}

// Writes the numbers of row x.
fn write_places(size: u32, class: &[u32], short: &[u8], places: &mut [u8], x: u32)
    requires square { IsSquare size class.now }
    requires row { x < size }
    requires short { length short.now ≡ size * size }
    requires places { length places.old ≡ size * size }
    ensures { IsRowWritten size class.now short.now x places.old places.new }
{
    let row = row_of(size, class, x);
    let start = (x * size) as usize;
    for z in 0..row.len() {
        places[start + z] = short[row[z] as usize];
    }
}

// Gives row x the lead a, if it has none yet and each of its classes stands in row a.
fn try_row(size: u32, class: &[u32], short: &[u8], a: u32, codes: &mut RowCodes, x: u32)
    requires square { IsSquare size class.now }
    requires lead { a < size }
    requires row { x < size }
    requires len { length short.now ≡ size * size }
    requires short { IsShort size class.now a short.now }
    requires leads_len { length codes.old.leads.items ≡ size }
    requires places_len { length codes.old.places.items ≡ size * size }
    requires tried { IsRowTried size class.now a codes.old.leads.items codes.old.places.items x }
    ensures leads_len { length codes.new.leads.items ≡ size }
    ensures places_len { length codes.new.places.items ≡ size * size }
    ensures tried { IsRowTried size class.now (a + 1) codes.new.leads.items codes.new.places.items x }
    ensures leads { (y : ℕ) → y ≢ x → slice_index codes.new.leads.items y ≡ slice_index codes.old.leads.items y }
    ensures places { (y w : ℕ) → y < size → w < size → y ≢ x → slice_index codes.new.places.items (y * size + w) ≡ slice_index codes.old.places.items (y * size + w) }
{
    if codes.leads[x as usize] == size && covers(size, class, short, a, x) {
        codes.leads[x as usize] = a;
        write_places(size, class, short, &mut codes.places, x);
    }
}

// Gives the lead a to the rows that have none yet and whose classes all stand in row a.
fn try_rows(size: u32, class: &[u32], short: &[u8], a: u32, codes: &mut RowCodes)
    requires square { IsSquare size class.now }
    requires lead { a < size }
    requires len { length short.now ≡ size * size }
    requires short { IsShort size class.now a short.now }
    requires leads_len { length codes.old.leads.items ≡ size }
    requires places_len { length codes.old.places.items ≡ size * size }
    requires tried { (x : ℕ) → x < size → IsRowTried size class.now a codes.old.leads.items codes.old.places.items x }
    ensures leads_len { length codes.new.leads.items ≡ size }
    ensures places_len { length codes.new.places.items ≡ size * size }
    ensures tried { (x : ℕ) → x < size → IsRowTried size class.now (a + 1) codes.new.leads.items codes.new.places.items x }
{
    for x in 0..size {
        try_row(size, class, short, a, codes, x);
    }
}

// The leads of the rows, and the numbers of their classes.
pub(crate) fn row_codes(alloc: Global, size: u32, class: &[u32]) -> Result<RowCodes, NoMemory>
    requires { IsSquare size class.now }
    ensures { IfOk result (λ codes. IsRowCode size class.now codes.leads.items codes.places.items) }
{
    let mut short = vec![in alloc; 0; (size * size) as usize]?;
    let leads = vec![in alloc; size; size as usize]?;
    let places = vec![in alloc; 0; (size * size) as usize]?;
    let mut codes = RowCodes { leads, places };
    for a in 0..size {
        note_places(size, class, a, &mut short);
        try_rows(size, class, &short, a, &mut codes);
    }
    Ok(codes)
}
