//! The checker of traces: whether a claim of a coherent closure is accepted, and else its first bad
//! line.
//!
//! * `verdicts`: `Verdict`, what there is to say of a claim.
//! * `replaying`: a stage gone through step by step, on one partition that is split in place.
//! * `partitions`: where a stage starts.
//! * `ending`: whether the last partition shows the claimed closure.
//! * `checking`: `check`, over all of these.
//!
//! Nothing here closes a colouring: each step is carried out anew by its definition, and the end is
//! tested for coherence. The definitions stand in `trace_text`.
#![tactic(auto)]

mod checking;
mod ending;
mod partitions;
mod replaying;
mod verdicts;

pub use checking::check;
pub use trace_text::CheckWord;
pub use verdicts::Verdict;
