//! Quotients of a homogeneous coherent configuration by a closed subset, and its subschemes on the
//! classes (Bailey, Association Schemes, 2004, chapter 10).
//!
//! * `dividing`: `quotient` and `subscheme`, and why there is none.
//! * `parts`: the quotient and the subscheme, once the classes are known.
//! * `classes`: the classes of a closed subset, by their least points.
//! * `meeting`: the least colour that is met between two classes.
//! * `picking`: a colouring on some of its points.
//! * `laws`: quotients and subschemes are coherent; there is one of each.
//!
//! The definitions stand in `specs/`.
#![tactic(auto)]

mod classes;
mod dividing;
pub mod laws;
mod meeting;
mod parts;
mod picking;

pub use dividing::{QuotientFault, quotient, subscheme};
