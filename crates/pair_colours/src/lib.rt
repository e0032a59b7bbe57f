//! Colourings of the ordered pairs of points: their classes, their canonical naming, and what it
//! means to be a coherent configuration and the closure of a colouring.
//!
//! * `coloured_pairs`: `Colouring`, the matrix of colours that every crate above works on.
//! * `colour_sets`: sets of colours, and whether their pairs are the edges of a graph.
//! * `fibres`: `has_one_fibre`.
//! * `naming_walk`: `pair_on_walk`, the walk over all pairs in whose order classes are named.
//! * `number_list`: `Numbers`, the list of numbers that readers and answers hand on.
//! * `numbering`: numbers for equal entries of a list, which naming, refining and meeting share.
//! * `pair_codes`: `pair_code`, two numbers as one, and `side_codes`, what stands over a pair.
//! * `laws`: what holds of the definitions alone.
//!
//! The definitions stand in `specs/`; docs/DEFINITIONS.md has them in words.
#![tactic(auto)]

mod colour_sets;
mod coloured_pairs;
mod fibres;
pub mod laws;
mod naming_walk;
mod no_memory;
mod number_list;
mod numbering;
mod pair_codes;

pub use colour_sets::{ColourSet, is_colour_set, is_edge_set};
pub use coloured_pairs::{Colouring, MOST_COLOUR, MOST_POINTS};
pub use fibres::has_one_fibre;
pub use naming_walk::pair_on_walk;
pub use no_memory::NoMemory;
pub use number_list::Numbers;
pub use pair_codes::{code_pair, pair_code, side_codes};
