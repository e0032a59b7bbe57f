//! One round of Weisfeiler-Leman refinement: which pairs of points a colouring cannot tell apart.
//!
//! * `rounds`: `round_of`, over all of these.
//! * `hashing`: a number for each pair, one for pairs that are alike.
//! * `sweeping`: whether the pairs of each class are alike, and marks that part them if not.
//! * `comparing`: `mark_unlike`, which pairs of a list are alike to the first.
//! * `sides`: `Sides`, the pairs of a colouring ready to be compared.
//! * `row_codes`: short numbers for the classes in the rows of a matrix.
//! * `code_counts`: how often the sums of two lists come.
//! * `sorting`: numbers with their places, sorted; `transposing`: the transposed matrix.
#![tactic(auto)]

pub mod code_counts;
mod comparing;
mod hashing;
mod rounds;
mod row_codes;
mod sides;
pub mod sorting;
mod sweeping;
pub mod transposing;

pub use rounds::round_of;
