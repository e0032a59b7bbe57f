//! The texts of the answers: each call makes one answer whole, as bytes.
//!
//! * `edit_lines`: what an accepted edit and a refused line answer.
//! * `matrices`: the answers that show a matrix.
//! * `classes`, `constants`: the answers that list the classes and the structure constants.
//! * `test_lines`: the answer of the five tests.
//! * `arrays`: the answers on distance-regular graphs.
//! * `entries`: the lines of what a visitor met.
//! * `sets`, `strings`: the answers that list sets of colours and growth strings.
//! * `graphs`: the answers that show a graph of classes.
//! * `verdict_lines`: the answer of a check of a trace.
//!
//! Each text stands in `specs/` as a function of the mathematical values that the call is given;
//! docs/FORMATS.md has them in words. Every line ends with one LF byte, and single spaces part the
//! words of a line.
#![tactic(auto)]

mod arrays;
mod classes;
mod constants;
mod edit_lines;
mod entries;
mod graphs;
mod matrices;
mod sets;
mod strings;
mod test_lines;
mod verdict_lines;

pub use arrays::array_text;
pub use classes::classes_text;
pub use constants::constants_text;
pub use edit_lines::{edit_text, refused_text};
pub use entries::put_entries;
pub use graphs::{GraphNote, graph_text};
pub use matrices::{MatrixHead, matrix_text};
pub use sets::{SetHead, sets_text};
pub use strings::{close_text, mergings_text};
pub use test_lines::tests_text;
pub use verdict_lines::verdict_text;
