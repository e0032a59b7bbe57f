//! The good sets of colours of a coherent configuration: the blocks of its fusions.
//!
//! * `listing`: `good`, which delivers all of them to a visitor, and `good_numbers`.
//! * `goodness`: whether a set is good, by the closure on colours.
//! * `necessary`: tests that each good set passes.
//! * `transposing`: the transposes of a set.
//! * `table`: the structure constants as a table, and products of sets.
//! * `laws`: what holds of the definitions alone.
//!
//! The definitions stand in `specs/`; fusions are colour_wl's, masks those of visitors.
#![tactic(auto)]

mod goodness;
pub mod laws;
mod listing;
mod necessary;
mod table;
mod transposing;

pub use listing::{good, good_numbers, list_colours};
pub use table::{constants_table, product};
pub use transposing::transposes_of;
