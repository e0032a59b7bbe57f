//! Traces: certificates of a coherent closure, which a checker judges without closing anything.
//!
//! A trace is a chain of stages, each a colouring and a list of steps that split classes, and a
//! colouring that is claimed to be the closure of the colours of the last stage.
//!
//! * `step_list`: `Step`, which splits a class of a partition, and `Steps`, a list of steps.
//! * `stage_list`: `Stage`, `Chain` and `Claim`, what a trace says.
//! * `stage_starts`: `start_of`, the partition at which a stage starts.
//! * `check_words`: why a claim is not accepted.
//! * `limits`: how long a trace may be, and what a step may name.
//! * `trace_faults`: what is wrong with a text that is no trace.
//! * `trace_cursor`, `line_numbers`: the lines of a text that are left to read, and their numbers.
//! * `reader`, `writer`: from the text of a claim to the claim, and back.
//! * `laws`: what holds of the definitions alone.
//!
//! The definitions stand in `specs/`; docs/DEFINITIONS.md has them in words.
#![tactic(auto)]

mod check_words;
pub mod laws;
mod limits;
mod line_numbers;
mod reader;
mod stage_list;
mod stage_starts;
mod step_list;
mod trace_cursor;
mod trace_faults;
mod writer;

pub use check_words::CheckWord;
pub use limits::{MOST_STEP_NUMBER, MOST_TRACE};
pub use reader::read_trace;
pub use stage_list::{Chain, Claim, Stage};
pub use stage_starts::start_of;
pub use step_list::{Step, Steps};
pub use trace_faults::{TraceFault, TraceWord};
pub use writer::write_trace;
