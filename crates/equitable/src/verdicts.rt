//! What there is to say of a claim.

use crate::check_words::CellCheck;

/// Whether a claim is accepted.
#[derive(Clone, Copy, Debug, PartialEq, Eq)]
pub enum CellVerdict {
    /// The claimed cells are the coarsest equitable partition of the arcs (`laws::l11`). There are so
    /// many points, so many different claimed cells, and so many steps.
    Accepted { points: u32, cells: u32, steps: u32 },
    /// The first bad line of the text of the claim, counted from 1, and what is wrong there.
    Refused { line: u32, what: CellCheck },
}
