//! The parameters of a distance-regular graph, from its intersection array alone: its valencies, its
//! points and its intersection numbers (Brouwer, Cohen and Neumaier, Distance-Regular Graphs, 1989,
//! section 4.1).
//!
//! * `array_table`: `table`, and `ArrayTable` with what it tells of an array.
//! * `refusals`: `TableFault`, why an array has no table.
//! * `shares`: how many neighbours of a point are nearer to another, as far from it, and farther.
//! * `valencies`: how many points are at each distance from a point.
//! * `levels`: the intersection numbers, level by level.
//! * `laws`: the table of an array is that of every graph that has the array.
//!
//! The definitions stand in `specs/`.
#![tactic(auto)]

mod array_table;
pub mod laws;
mod levels;
mod refusals;
mod shares;
mod valencies;

pub use array_table::{ArrayTable, table};
pub use refusals::TableFault;
pub use shares::{MOST_DIAMETER, MOST_NUMBER};
