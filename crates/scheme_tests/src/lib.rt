//! Tests of a coherent configuration: whether it is homogeneous, symmetric, commutative, thin and
//! primitive.
//!
//! * `properties`: `SchemeTests` and `tests`, with the tests that look up constants.
//! * `spans`: whether the least closed subset that holds a class is everything.
//! * `laws`: every configuration has answers, and commutativity needs one order of classes.
//!
//! The definitions stand in `specs/SchemeTests.antt`; closed sets are pair_colours'.
#![tactic(auto)]

pub mod laws;
mod properties;
mod spans;

pub use properties::{SchemeTests, tests};
