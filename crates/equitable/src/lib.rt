//! Coarsest equitable partitions of the points of a digraph, each with a trace that a checker judges
//! without refining anything.
//!
//! The arcs of a set of colours of a relation are the pairs with a colour in the set. A partition of
//! the points is equitable where from the points of one cell equally many arcs lead into each cell.
//!
//! * `cell_steps`: `CellStep`, which parts one cell, and `CellSteps`, a list of steps.
//! * `cell_claims`: `CellClaim`, arcs, steps, and cells that are claimed to be the coarsest equitable
//!   partition.
//! * `check_words`, `verdicts`: what there is to say of a claim.
//! * `arc_sets`, `cell_faults`: the arcs of a set of colours, and why there are none.
//! * `cell_points`: the points of a cell, and the arcs that lead to them.
//! * `partition`: `Partition`, the cells of the points, parted in place.
//! * `odd_steps`: a step that is not idle, or none where the partition is equitable.
//! * `waiting_cells`: steps by cells that wait to part others, of which the greatest part is left out.
//! * `refining`: `cells`, the claim for the arcs of a set of colours.
//! * `checking`: `check_cells`, over `partition` and `odd_steps`.
//! * `limits`, `text_faults`: how long a text may be, and what is wrong with one that is no claim.
//! * `next_lines`, `line_numbers`: the lines of a text that are left to read, and their numbers.
//! * `reader`, `writer`: from the text of a claim to the claim, and back.
//! * `laws`: what holds of the definitions alone.
//!
//! The definitions stand in `specs/`; docs/DEFINITIONS.md has them in words.
#![tactic(auto)]

mod arc_sets;
mod cell_claims;
mod cell_faults;
mod cell_points;
mod cell_steps;
mod check_words;
mod checking;
pub mod laws;
mod limits;
mod line_numbers;
mod next_lines;
mod odd_steps;
mod partition;
mod reader;
mod refining;
mod text_faults;
mod verdicts;
mod waiting_cells;
mod writer;

pub use cell_claims::CellClaim;
pub use cell_faults::CellFault;
pub use cell_steps::{CellStep, CellSteps};
pub use check_words::CellCheck;
pub use checking::check_cells;
pub use limits::{MOST_CELL, MOST_CELL_TEXT};
pub use reader::read_cells;
pub use refining::cells;
pub use text_faults::{CellTextFault, CellWord};
pub use verdicts::CellVerdict;
pub use writer::write_cells;
