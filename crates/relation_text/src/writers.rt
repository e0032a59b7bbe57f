//! The writers of relations.

ghost use Rattle.std.specs.Prelude.{◌≡◌, IfOk, OnOk, IsErrOf};
ghost use Rattle.pair_colours.specs.ColourSets.{IsColourSet, IsEdgeSet};
ghost use Rattle.relation_text.specs.Orders.{column_pairs, row_pairs};
ghost use Rattle.relation_text.specs.Written.{digraph6_of, graph6_of, matrix_of, pair_bits};

use crate::encoding::{push_bits, push_size};
use crate::faults::WriteFault;
use pair_colours::{ColourSet, Colouring, NoMemory, is_colour_set, is_edge_set};
use std::alloc::Global;
use text_lines::{Text, put_rows};

/// The graph6 text, without a line end, of the graph whose edges are the pairs with a colour in the
/// set.
///
/// The set is bad where one of its numbers is no colour of a pair, or where the pairs include a
/// diagonal pair, or a pair without its transposed pair.
pub fn write_graph6(alloc: Global, relation: &Colouring, set: &[u32]) -> Result<Vec<u8>, WriteFault>
    ensures text { IfOk result (λ text. text.items ≡ graph6_of relation.now set.now) }
    ensures good { OnOk result (IsEdgeSet relation.now set.now) }
    ensures bad { IsErrOf result WriteFault.BadSet → ¬ IsEdgeSet relation.now set.now }
{
    if !is_edge_set(alloc, relation, set)? {
        return Err(WriteFault::BadSet);
    }
    let bits = column_bits(alloc, relation, set)?;
    let mut text = Vec::new(alloc);
    push_size(&mut text, relation.size())?;
    push_bits(&mut text, &bits)?;
    Ok(text)
}

/// The digraph6 text, without a line end, of the digraph whose arcs are the pairs with a colour in
/// the set.
///
/// The set is bad where one of its numbers is no colour of a pair.
pub fn write_digraph6(
    alloc: Global,
    relation: &Colouring,
    set: &[u32],
) -> Result<Vec<u8>, WriteFault>
    ensures text { IfOk result (λ text. text.items ≡ digraph6_of relation.now set.now) }
    ensures good { OnOk result (IsColourSet relation.now set.now) }
    ensures bad { IsErrOf result WriteFault.BadSet → ¬ IsColourSet relation.now set.now }
{
    if !is_colour_set(alloc, relation, set)? {
        return Err(WriteFault::BadSet);
    }
    let bits = row_bits(alloc, relation, set)?;
    let mut text = Vec::from_slice(alloc, b"&")?;
    push_size(&mut text, relation.size())?;
    push_bits(&mut text, &bits)?;
    Ok(text)
}

// Column by column, whether the colour of each pair (i, j) with i below j is in the set.
fn column_bits(alloc: Global, relation: &Colouring, set: &[u32]) -> Result<Vec<bool>, NoMemory>
    ensures { IfOk result (λ bits. bits.items ≡ pair_bits relation.now set.now (column_pairs relation.now.size)) }
{
    bits_in_columns(alloc, relation, &ColourSet::of(alloc, set)?)
}

// The same of a set that is made for asking.
fn bits_in_columns(
    alloc: Global,
    relation: &Colouring,
    set: &ColourSet,
) -> Result<Vec<bool>, NoMemory>
    ensures { IfOk result (λ bits. bits.items ≡ pair_bits relation.now set.now (column_pairs relation.now.size)) }
{
    let mut bits = Vec::new(alloc);
    for j in 0..relation.size() {
        for i in 0..j {
            bits.push(set.has_pair(relation, i, j))?;
        }
    }
    Ok(bits)
}

// Row by row, whether the colour of each pair is in the set.
fn row_bits(alloc: Global, relation: &Colouring, set: &[u32]) -> Result<Vec<bool>, NoMemory>
    ensures { IfOk result (λ bits. bits.items ≡ pair_bits relation.now set.now (row_pairs relation.now.size)) }
{
    bits_in_rows(alloc, relation, &ColourSet::of(alloc, set)?)
}

// The same of a set that is made for asking.
fn bits_in_rows(alloc: Global, relation: &Colouring, set: &ColourSet) -> Result<Vec<bool>, NoMemory>
    ensures { IfOk result (λ bits. bits.items ≡ pair_bits relation.now set.now (row_pairs relation.now.size)) }
{
    let mut bits = Vec::new(alloc);
    for i in 0..relation.size() {
        for j in 0..relation.size() {
            bits.push(set.has_pair(relation, i, j))?;
        }
    }
    Ok(bits)
}

/// The matrix text: the head line, and the rows of `put_rows`.
pub fn write_matrix(alloc: Global, relation: &Colouring) -> Result<Vec<u8>, NoMemory>
    ensures { IfOk result (λ text. text.items ≡ matrix_of relation.now) }
{
    let mut text = Text::new(alloc);
    text.put_field(b"matrix ", relation.size())?;
    text.put(b"\n")?;
    put_rows(&mut text, relation)?;
    Ok(text.into_bytes())
}
