//! The input of the demonstration: a relation and seven lines, made from a number.
//!
//! * `relations`: `demo_relation`, the relation of a number.
//! * `script_lines`: `demo_lines`, the lines, which are the same for all numbers.
//! * `laws`: what holds of every number.
//!
//! The definitions stand in `specs/`.
#![tactic(auto)]

pub mod laws;
mod relations;
mod script_lines;

pub use relations::demo_relation;
pub use script_lines::demo_lines;
