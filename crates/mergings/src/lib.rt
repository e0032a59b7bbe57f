//! All fusions of a coherent configuration of at most 16 colours, in lexicographic order, from any
//! place on: a search with good sets of colours that is pruned by products of blocks.
//!
//! * `listing`: `mergings`, which delivers the fusions to a visitor.
//! * `pieces`: the list in pieces, each resumed after the last string of the one before it.
//! * `delivering`: the first fusions, or the first after a string, by prefixes that have few.
//! * `searching`: all fusions with a prefix, or that there are too many.
//! * `heads`: blocks of colours by their heads.
//! * `products`: whether the products of blocks are constant on blocks.
//! * `goods`: the good sets by their least colours.
//! * `met`: the strings of a piece.
//! * `faults`: `MergeFault`, why the list is not delivered.
//!
//! The definitions stand in `specs/`; fusions are colour_wl's, good sets those of good_subsets.
#![tactic(auto)]

mod delivering;
mod faults;
mod goods;
mod heads;
mod listing;
mod met;
mod pieces;
mod products;
mod searching;

pub use faults::MergeFault;
pub use listing::mergings;
