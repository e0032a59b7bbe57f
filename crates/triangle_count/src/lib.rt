//! Triangle numbers: over a pair of points, how many third points have given colours to the two
//! ends of the pair.
//!
//! * `rows`: `Entry` and `Row`, the triangle numbers of a pair that are not 0.
//! * `triangles`: `count`, one triangle number, and `row_at`, all those of a pair.
//! * `runs`: entries from the sorted list of the colours over each point.
//! * `cache`: `Cache`, the rows of all pairs of a colouring, kept while the colouring changes.
//!
//! The definitions stand in `specs/Row.antt` and `specs/Cache.antt`.
#![tactic(auto)]

mod cache;
mod rows;
mod runs;
mod triangles;

pub use cache::Cache;
pub use rows::{Entry, Row};
pub use triangles::{count, row_at};
