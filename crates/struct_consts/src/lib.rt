//! The structure constants of a coherent configuration, and the data of its classes.
//!
//! * `intersection_numbers`: `Constants`, a configuration with the row and the data of each class.
//! * `classes`: what is kept of one class.
//! * `passes`: what one pass over all pairs tells of every class: its first pair and its size.
//! * `lookup`: the count of two colours in a row.
//! * `laws`: what holds of the definitions alone.
//!
//! The definitions stand in `specs/ClassData.antt`; those of the rows are triangle_count's.
#![tactic(auto)]

mod classes;
mod intersection_numbers;
pub mod laws;
mod lookup;
mod passes;

pub use intersection_numbers::Constants;
pub use triangle_count::Entry;
