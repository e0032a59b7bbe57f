//! Distance-regular graphs: the intersection array of the graph of a set of colours, or the reason
//! why it has none (Brouwer, Cohen and Neumaier, Distance-Regular Graphs, 1989).
//!
//! * `arrays`: `array`, the call that judges a graph.
//! * `answer`: `ArrayAnswer` and `ArrayFault`, what it answers.
//! * `graph`: the edges that a set of colours chooses.
//! * `levels`: the distances from one point, by a search level by level.
//! * `distances`: the distances of all pairs, and the first pair that has none.
//! * `counts`: how many neighbours of a point are nearer, and how many farther.
//! * `places`: the first place of each distance, and the first place whose counts differ from it.
//! * `laws`: every graph has an answer, and only one; and every graph has a table of distances.
//!
//! The definitions stand in `specs/`. They speak of walks; the search speaks of levels.
#![tactic(auto)]

mod answer;
mod arrays;
mod counts;
mod distances;
mod graph;
pub mod laws;
mod levels;
mod places;

pub use answer::{ArrayAnswer, ArrayFault};
pub use arrays::array;
