//! Scripts: the texts of edits and queries, one on a line, that a workbench answers in order.
//!
//! * `acts`: what the lines of a script ask for.
//! * `faults`: what is wrong with a text that is no script.
//! * `limits`: how long a script may be, and what it may ask for.
//! * `keywords`: the words that lines begin with.
//! * `word_numbers`: the numbers among the words of a line.
//! * `act_words`: from the words of a line to its act.
//! * `reading`: from the bytes of a text to the lines of a script.
//! * `laws`: what holds of the definitions alone.
//!
//! The definitions stand in `specs/`: `Grammar` says which words ask for which act, and
//! `LineFaults` which line has which fault.
#![tactic(auto)]

mod act_words;
mod acts;
mod faults;
mod keywords;
pub mod laws;
mod limits;
mod reading;
mod word_numbers;

pub use acts::{Act, GraphForm, Line, Name};
pub use faults::{ScriptFault, ScriptWord};
pub use limits::{MOST_LINES, MOST_MERGINGS, MOST_PRODUCTS, MOST_SCRIPT};
pub use reading::read_script;
