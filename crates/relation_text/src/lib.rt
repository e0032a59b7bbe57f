//! Reading and writing relations: graph6 and digraph6 lines, and matrices of colours.
//!
//! * `faults`: what is wrong with a text, or with what is to be written.
//! * `choosing`: the line on which a relation begins.
//! * `graph_format`: the two graph formats.
//! * `graph_faults`: the faults of a graph line.
//! * `graph_bits`: the colouring that the bits of a graph line give.
//! * `graphs`: graph lines as a whole.
//! * `matrices`, `matrix_rows`: matrices, and their rows.
//! * `reading`: relations as a whole.
//! * `encoding`: sizes and bits as printable bytes.
//! * `writers`: the texts that are written.
//! * `laws`: what holds of the definitions alone.
//!
//! The definitions stand in `specs/`; docs/FORMATS.md has the formats in words.
#![tactic(auto)]

mod choosing;
mod encoding;
mod faults;
mod graph_bits;
mod graph_faults;
mod graph_format;
mod graphs;
pub mod laws;
mod matrices;
mod matrix_rows;
mod reading;
mod writers;

pub use faults::{RelationFault, RelationWord, WriteFault};
pub use reading::{MOST_RELATION, read_relation};
pub use writers::{write_digraph6, write_graph6, write_matrix};
