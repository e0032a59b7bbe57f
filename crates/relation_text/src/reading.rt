//! Relations as a whole.

ghost use Rattle.std.specs.Prelude.{◌≡◌, ◌≤◌, All, None, IfOk, IfErr, OnOk, length};
ghost use Rattle.pair_colours.specs.declared.coloured_pairs.TheConstants.{MOST_COLOUR};
ghost use Rattle.relation_text.specs.Relation.{IsRelationText};
ghost use Rattle.relation_text.specs.Faults.{IsFaultOf, relation_fault};

use crate::choosing::{chosen_line, part_after};
use crate::faults::{RelationFault, RelationWord, text_fault};
use crate::graphs::{read_digraph, read_graph};
use crate::matrices::read_matrix;
use pair_colours::Colouring;
use std::alloc::Global;
use text_lines::lines;

/// The most bytes of a relation text.
pub const MOST_RELATION: u32 = 4_194_304;

/// Reads the relation that begins on a line of the text, counted from 1: a graph6 or digraph6 line,
/// or a matrix. A header `>>graph6<<` or `>>digraph6<<` at the front of the text is no part of line
/// 1. Other lines than those of the relation are not judged.
///
/// A fault of the text is the first in the order of docs/FORMATS.md.
pub fn read_relation(alloc: Global, bytes: &[u8], line: u32) -> Result<Colouring, RelationFault>
    requires counted { 1 ≤ line }
    requires limit { length bytes.now ≤ MOST_RELATION }
    ensures read { IfOk result (λ c. IsRelationText bytes.now line c) }
    ensures raw { IfOk result (λ c. All (λ colour. colour ≤ MOST_COLOUR) c.colours) }
    ensures good { OnOk result (relation_fault bytes.now line ≡ None) }
    ensures fault { IfErr result (λ fault. IsFaultOf fault (relation_fault bytes.now line)) }
{
    let mut left = lines(bytes);
    let Some(chosen) = chosen_line(bytes, &mut left, line) else {
        return Err(text_fault((RelationWord::NoLine, bytes.len())));
    };
    if chosen.bytes.starts_with(b"matrix ") {
        read_matrix(alloc, bytes.len(), chosen, left)
    } else if chosen.bytes.starts_with(b"&") {
        read_digraph(alloc, part_after(chosen, 1))
    } else {
        read_graph(alloc, chosen)
    }
}
