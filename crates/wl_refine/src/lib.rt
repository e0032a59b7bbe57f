//! The closure of a colouring, by Weisfeiler-Leman refinement, with the steps that lead to it.
//!
//! * `closing`: `close` and `close_from`, over all of these.
//! * `round_chains`: chains of rounds over the colours of a chain.
//! * `finishing`: steps up to a coherent partition.
//! * `searching`: most of the steps, found by what is certain, and then by guesses and comparisons.
//! * `ways`: `Way`, a partition and the steps that made it.
#![tactic(auto)]

mod closing;
mod finishing;
mod round_chains;
mod searching;
mod ways;

pub use closing::{Closed, close, close_from};
pub use round_chains::rounds;
