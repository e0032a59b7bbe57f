//! The program as one call: `run` takes the words, reads the files that they name, and answers.
//!
//! * `running`: `run`, with the headline and the causes of its statuses (`status`).
//! * `run_form`: the form of words that answers a script over a relation.
//! * `check_form`, `cells_form`: the forms of words that judge a trace, and a trace of cells.
//! * `demo_form`: the form of words that answers seven lines over a relation made from a number.
//! * `ask_forms`: the forms of words that answer a question about a relation.
//! * `table_form`: the form of words that tells the parameters of an intersection array.
//! * `halting`: the status where a file was not read, or the answers were not written whole.
//! * `answering`: `session`, the answers of a script line by line; `answers`: one of them, and
//!   `queries`: one that changes nothing; `subset_queries`: one about closed subsets, and
//!   `fusion_queries`: one about fusions.
//! * `laws`: every task has an output where no file is bad, and every script over every relation,
//!   whose outputs differ in the steps of traces of version 1 alone; a check accepts each trace that
//!   is shown; each demonstration has one output.
//!
//! The definitions stand in `specs/`: `Run` says what holds after each status, `Forms` what each form
//! of words answers (`RunForm`, `CheckForm`, `DemoForm`, `AskForms`), and `Output` and `Answer` what a
//! script does. The words, the files and the lines on standard error are those of `cohere_inputs`.
#![tactic(auto)]

mod answering;
mod answers;
mod ask_forms;
mod cells_form;
mod check_form;
mod demo_form;
mod fusion_queries;
mod halting;
pub mod laws;
mod queries;
mod run_form;
mod running;
mod status;
mod subset_queries;
mod table_form;

pub use answering::{SessionFault, session};
pub use running::run;
pub use status::Status;
