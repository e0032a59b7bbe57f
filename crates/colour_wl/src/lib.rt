//! Fusions of a coherent configuration: the coherent configurations got by merging its colours.
//!
//! * `growing`: growth strings, by which colours are merged.
//! * `fusing`: whether a merging is coherent, and the closure on colours.
//! * `hashing`: rounds of the refinement on colours by words, sums over the structure constants.
//! * `exact`: exact rounds, by the structure constants themselves.
//! * `laws`: what holds of the definitions alone.
//!
//! The definitions stand in `specs/`.
#![tactic(auto)]

mod exact;
mod fusing;
mod growing;
mod hashing;
pub mod laws;

pub use fusing::{close_colours, is_fusion};
pub use growing::{is_growth, next_of};
