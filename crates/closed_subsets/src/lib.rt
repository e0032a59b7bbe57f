//! The closed subsets of a coherent configuration: the sets of colours whose pairs form an
//! equivalence relation on all points.
//!
//! * `listing`: `closed`, which delivers all of them to a visitor.
//! * `closedness`: whether a set is closed, by the structure constants.
//! * `products`: the classes that the product of two classes has, as masks.
//! * `laws`: what holds of the definitions alone.
//!
//! The definitions stand in `specs/`; closed sets are pair_colours', masks those of visitors.
#![tactic(auto)]

mod closedness;
pub mod laws;
mod listing;
mod products;

pub use listing::closed;
