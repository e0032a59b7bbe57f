//! Worked rows of the program: what it answers, writes and says for words and files. Tests alone.
//!
//! * `runs`: the rows of tables, and the loops that run them over stores and sinks in memory.
//! * `texts`: texts that are too long for a table.
//! * `usage`: words that fit no form.
//! * `relations`, `histories`, `queries`, `closed_sets`, `fusion_lists`, `product_lines`: scripts
//!   that are answered, by what they are about; `script_faults`: texts that are none.
//! * `cells_form`: cells, each trace of them put through a check; `judged_cells`: claims of cells that
//!   are accepted or not; `cell_trace_faults`: files that are no trace of cells.
//! * `asked_files`: which files each form loads, and the first bad one.
//! * `judged_traces`: claims that are accepted or not; `trace_faults`: files that are no trace.
//! * `shown_traces`, `shown_rounds`: traces that are shown, each put through a check by `showing`.
//! * `demonstrations`: the demonstration of a number.
//! * `ring_form`, `table_form`, `lattice_form`: questions beside scripts, most of them by `asking`;
//!   `many_fusions`: lattices near the greatest number of fusions.
//! * `limits`: each limit at its last number and one past it.
//! * `failing_reads`, `failing_writes`, `failing_errors`: stores and sinks that fail at each call of
//!   the tasks of `tasks`.
//! * `refusing_visitors`, `other_visitors`: visitors that refuse, and one of the tests' own.
#![tactic(auto)]

#[cfg(test)]
mod asked_files;
#[cfg(test)]
mod asking;
#[cfg(test)]
mod cell_trace_faults;
#[cfg(test)]
mod cells_form;
#[cfg(test)]
mod closed_sets;
#[cfg(test)]
mod demonstrations;
#[cfg(test)]
mod failing_errors;
#[cfg(test)]
mod failing_reads;
#[cfg(test)]
mod failing_writes;
#[cfg(test)]
mod fusion_lists;
#[cfg(test)]
mod histories;
#[cfg(test)]
mod judged_cells;
#[cfg(test)]
mod judged_traces;
#[cfg(test)]
mod lattice_form;
#[cfg(test)]
mod limits;
#[cfg(test)]
mod many_fusions;
#[cfg(test)]
mod other_visitors;
#[cfg(test)]
mod product_lines;
#[cfg(test)]
mod queries;
#[cfg(test)]
mod refusing_visitors;
#[cfg(test)]
mod relations;
#[cfg(test)]
mod ring_form;
#[cfg(test)]
mod runs;
#[cfg(test)]
mod script_faults;
#[cfg(test)]
mod showing;
#[cfg(test)]
mod shown_rounds;
#[cfg(test)]
mod shown_traces;
#[cfg(test)]
mod table_form;
#[cfg(test)]
mod tasks;
#[cfg(test)]
mod texts;
#[cfg(test)]
mod trace_faults;
#[cfg(test)]
mod usage;
