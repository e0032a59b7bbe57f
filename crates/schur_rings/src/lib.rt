//! Schur rings over a group: the closures of colourings of its elements (Schur, 1933; Wielandt,
//! Finite Permutation Groups, 1964, chapter 4).
//!
//! * `group_tables`: `Group`, the multiplication table of a group.
//! * `axioms`: whether a table is that of a group.
//! * `associativity`: whether its products are associative, by generators.
//! * `thin_schemes`: the thin scheme of a group, whose structure constants are its products.
//! * `rings`: `ring`, the closure of a colouring of the elements.
//! * `numbering`: a colouring of the elements as a growth string.
//! * `laws`: what holds of the definitions alone.
//!
//! The definitions stand in `specs/`.
#![tactic(auto)]

mod associativity;
mod axioms;
mod group_tables;
pub mod laws;
mod numbering;
mod rings;
mod thin_schemes;

pub use group_tables::{Group, GroupFault};
pub use rings::{RingFault, ring};
