//! What a trace of an equitable partition says.

use crate::cell_steps::CellSteps;
use pair_colours::{Colouring, Numbers};

/// What is claimed: that steps lead from the partition with one cell to an equitable one, which is then
/// the coarsest (`laws::l11`), and which cell of it each point lies in.
#[derive(Drop)]
pub struct CellClaim {
    /// 1 on each arc, and 0 on all other pairs; a pair (x, x) of colour 1 is an arc, too.
    pub arcs: Colouring,
    /// The steps, in the order in which they are made.
    pub steps: CellSteps,
    /// The cell of each point, from point 0 on. Cells are numbered from 0 by first occurrence.
    pub cells: Numbers,
}
