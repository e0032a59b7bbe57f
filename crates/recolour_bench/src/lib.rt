//! The history of a colouring under edits, with the closure of each colouring in it and a chain that
//! shows the closure.
//!
//! * `edits`: `Edit`, what may be done to the present colouring, and `EditFault`, why it is not.
//! * `history`: `Bench`, the colourings that were made, under a position that `undo` and `redo` move.
//! * `kept`: what a bench keeps of each entry.
//! * `chaining`: the closure of what an edit made, and the stage of its chain.
//! * `refusals`: the tests of an edit, in their order.
//! * `recolouring`: the colouring that an edit makes.
//! * `making`: the two together.
//! * `laws`: what holds of the definitions alone.
//!
//! The definitions stand in `specs/`; docs/DEFINITIONS.md has them in words.
#![tactic(auto)]

mod chaining;
mod edits;
mod history;
mod kept;
pub mod laws;
mod making;
mod recolouring;
mod refusals;

pub use edits::{Edit, EditFault};
pub use history::{Bench, MOST_POSITION};
