//! The bits of a graph line, and the colouring that they give.

ghost use Rattle.std.specs.Prelude.{◌≡◌, ℕ, ◌+◌, ◌*◌, ◌/◌, ◌<◌, ◌≤◌, All, IfOk, length, slice_index};
ghost use Rattle.pair_colours.specs.Colouring.{IsColouring};
ghost use Rattle.pair_colours.specs.declared.coloured_pairs.TheConstants.{MOST_POINTS};
ghost use Rattle.relation_text.specs.Bits as spec;
ghost use Rattle.relation_text.specs.Relation as relation;
ghost use Rattle.relation_text.specs.Orders.{column_pairs};
ghost use Rattle.relation_text.specs.LineColours.{HasEdges, HasArcs};

use pair_colours::{Colouring, NoMemory};
use std::alloc::Global;

// The bit at a place of the bits that the bytes hold, six to a byte.
pub(crate) fn bit_in(bytes: &[u8], k: usize) -> bool
    requires inside { k / 6 < length bytes.now }
    requires printable { All (λ b. 63 ≤ b) bytes.now }
    ensures { result ≡ spec.bit_in bytes.now k }
{
    ((bytes[k / 6] - 63) >> (5 - k % 6)) % 2 == 1
}

// The colouring of a graph of this size, whose bits stand column by column.
pub(crate) fn graph_colouring(alloc: Global, size: u32, bytes: &[u8]) -> Result<Colouring, NoMemory>
    requires has_points { 1 ≤ size }
    requires limit { size ≤ MOST_POINTS }
    requires enough { length (column_pairs size) ≤ 6 * length bytes.now }
    requires printable { All (λ b. 63 ≤ b) bytes.now }
    ensures points { IfOk result (λ c. c.size ≡ size) }
    ensures colouring { IfOk result (λ c. IsColouring c) }
    ensures edges { IfOk result (λ c. HasEdges bytes.now c) }
{
    let mut colouring = Colouring::new(alloc, size, 0)?;
    let mut k = 0;
    for j in 0..size {
        for i in 0..j {
            let colour = pair_colour(i, j, bit_in(bytes, k));
            colouring.set(i, j, colour);
            colouring.set(j, i, colour);
            k += 1;
        }
    }
    Ok(colouring)
}

// The colouring of a digraph of this size, whose bits stand row by row.
pub(crate) fn digraph_colouring(
    alloc: Global,
    size: u32,
    bytes: &[u8],
) -> Result<Colouring, NoMemory>
    requires has_points { 1 ≤ size }
    requires limit { size ≤ MOST_POINTS }
    requires enough { size * size ≤ 6 * length bytes.now }
    requires printable { All (λ b. 63 ≤ b) bytes.now }
    ensures points { IfOk result (λ c. c.size ≡ size) }
    ensures colouring { IfOk result (λ c. IsColouring c) }
    ensures arcs { IfOk result (λ c. HasArcs bytes.now c) }
{
    let mut colouring = Colouring::new(alloc, size, 0)?;
    for i in 0..size {
        for j in 0..size {
            let bit = bit_in(bytes, (i * size + j) as usize);
            colouring.set(i, j, pair_colour(i, j, bit));
        }
    }
    Ok(colouring)
}

// The colour of a pair with this bit.
fn pair_colour(i: u32, j: u32, bit: bool) -> u32
    ensures { result ≡ relation.pair_colour i j bit }
{
    if i == j {
        if bit { 3 } else { 0 }
    } else {
        if bit { 1 } else { 2 }
    }
}
