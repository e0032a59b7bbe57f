//! What the program is asked for, and what it reads before it answers: the words, the files that
//! are loaded for them, and the lines on standard error.
//!
//! * `words`: what the words ask for; `run_form`, `check_form`, `demo_form`, `ask_forms`,
//!   `table_form`: the words of each form, and its files.
//! * `number_words`: `NumberWords`, words that are all numbers.
//! * `files`: a file that holds a relation, a script, a trace or a trace of cells, and `faults`: why
//!   it is not read.
//! * `products`: the files by which the lines of a script multiply.
//! * `saying`: the lines on standard error.
//! * `laws`: of the files of a task none is bad, or one is the first bad one; which files a run needs;
//!   that a trace within its limit has few lines; and the limits.
//!
//! The definitions stand in `specs/`: `Task` and `Words` say what the words ask for, `Needs` which
//! files are loaded, `Texts` and `Bad` which of them are bad, `Unread` where loading stops, and
//! `Lines` what is said.
#![tactic(auto)]

mod ask_forms;
mod check_form;
mod demo_form;
mod faults;
mod files;
pub mod laws;
mod number_words;
mod products;
mod run_form;
mod saying;
mod table_form;
mod words;

pub use ask_forms::{AskWords, Question, ask_input};
pub use check_form::{cells_input, check_input};
pub use faults::{FileFault, Halt, Unread};
pub use number_words::NumberWords;
pub use run_form::{RunInputs, RunWords, run_inputs};
pub use saying::{say_halt, say_no_memory, say_usage};
pub use table_form::TableWords;
pub use words::{MOST_LINE, Task, task_of};
