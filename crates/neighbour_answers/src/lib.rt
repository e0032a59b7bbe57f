//! The answers of the forms of words that stand beside scripts: each call makes one answer whole, as
//! bytes, from what was read of its words and its file.
//!
//! * `ring_answers`: the closure of a colouring of the elements of a group, or why there is none.
//! * `table_answers`: the table of an intersection array, or why it has none.
//! * `table_numbers`: the lines of the numbers of a table.
//! * `cells_answers`: a coarsest equitable partition with its steps, and the line of a verdict on one.
//! * `lattice_answers`: the fusions of a configuration with their covers, and the common fusion of two.
//! * `lattice_texts`: the texts of these answers.
//! * `laws`, `lattice_laws`: each question has an answer, and but for the steps of cells only one.
//!
//! A question that is refused has an answer, too: the line `refused WORD`. The definitions stand in
//! `specs/`; docs/FORMATS.md has them in words. Every line ends with one LF byte, and single spaces
//! part the words of a line.
#![tactic(auto)]

mod cells_answers;
mod lattice_answers;
pub mod lattice_laws;
mod lattice_texts;
pub mod laws;
mod ring_answers;
mod table_answers;
mod table_numbers;

pub use cells_answers::{cell_verdict, cells_answer};
pub use lattice_answers::{common_answer, lattice_answer};
pub use ring_answers::ring_answer;
pub use table_answers::table_answer;
