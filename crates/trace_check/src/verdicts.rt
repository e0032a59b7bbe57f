//! What there is to say of a claim.

use trace_text::CheckWord;

/// Whether a claim is accepted.
#[derive(Clone, Copy, Debug, PartialEq, Eq)]
pub enum Verdict {
    /// The claimed colouring is the closure of the colours of the last stage. `rank` is its number of
    /// classes, and `steps` the number of steps of all stages.
    Accepted { points: u32, rank: u32, steps: u32 },
    /// The first bad line of the text of the claim, counted from 1, and what is wrong there.
    Refused { line: u32, what: CheckWord },
}
