//! Graph lines.

ghost use Rattle.std.specs.Prelude.{◌≡◌, ◌^◌, ◌<◌, None, IfOk, IfErr, OnOk};
ghost use Rattle.text_lines.specs.Views.{part_of};
ghost use Rattle.pair_colours.specs.Colouring.{IsColouring};
ghost use Rattle.pair_colours.specs.Tests.{first_that_holds};
ghost use Rattle.relation_text.specs.Lines.{end_of};
ghost use Rattle.relation_text.specs.Faults as spec;
ghost use Rattle.relation_text.specs.LineColours.{HasEdges, HasArcs};
ghost use Rattle.relation_text.specs.declared.graph_format.GraphFormat.TheVariants.{Graph, Digraph};

use crate::faults::{RelationFault, text_fault};
use crate::graph_bits::{digraph_colouring, graph_colouring};
use crate::graph_faults::{graph_fault, size_len, size_of};
use crate::graph_format::GraphFormat;
use pair_colours::Colouring;
use std::alloc::Global;
use text_lines::TextPart;

// Reads a graph6 line.
pub(crate) fn read_graph(alloc: Global, line: TextPart<'_>) -> Result<Colouring, RelationFault>
    requires { end_of (part_of line) < 2 ^ 32 }
    ensures fault { IfErr result (λ fault. spec.IsFaultOf fault (first_that_holds (spec.graph_tests Graph (part_of line.entry)))) }
    ensures good { OnOk result (first_that_holds (spec.graph_tests Graph (part_of line.entry)) ≡ None) }
    ensures points { IfOk result (λ c. c.size ≡ spec.size_of line.entry.bytes.now) }
    ensures colouring { IfOk result (λ c. IsColouring c) }
    ensures edges { IfOk result (λ c. HasEdges (spec.bits_part line.entry.bytes.now) c) }
{
    if let Some(fault) = graph_fault(GraphFormat::Graph, line) {
        return Err(text_fault(fault));
    }
    let size = size_of(line.bytes);
    let (_, bits) = line.bytes.split_at(size_len(size));
    Ok(graph_colouring(alloc, size as u32, bits)?)
}

// Reads a digraph6 line, without its ampersand.
pub(crate) fn read_digraph(alloc: Global, body: TextPart<'_>) -> Result<Colouring, RelationFault>
    requires { end_of (part_of body) < 2 ^ 32 }
    ensures fault { IfErr result (λ fault. spec.IsFaultOf fault (first_that_holds (spec.graph_tests Digraph (part_of body.entry)))) }
    ensures good { OnOk result (first_that_holds (spec.graph_tests Digraph (part_of body.entry)) ≡ None) }
    ensures points { IfOk result (λ c. c.size ≡ spec.size_of body.entry.bytes.now) }
    ensures colouring { IfOk result (λ c. IsColouring c) }
    ensures arcs { IfOk result (λ c. HasArcs (spec.bits_part body.entry.bytes.now) c) }
{
    if let Some(fault) = graph_fault(GraphFormat::Digraph, body) {
        return Err(text_fault(fault));
    }
    let size = size_of(body.bytes);
    let (_, bits) = body.bytes.split_at(size_len(size));
    Ok(digraph_colouring(alloc, size as u32, bits)?)
}
