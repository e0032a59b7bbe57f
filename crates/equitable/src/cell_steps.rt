//! The steps of a claim.

ghost use Rattle.std.specs.Prelude.{◌≡◌, ℕ, ◌^◌, ◌-◌, ◌<◌, List, [], ◌∷◌, ◌++◌, length, slice_get, OnOk, OnErr};

use pair_colours::NoMemory;
use std::alloc::Global;
use std::marker::Model;

/// Parts the cell `cell` by how many arcs lead from a point into the cell `into`. Cells are named by
/// their numbers: the part with the fewest arcs keeps the number, and the others get the next numbers
/// that no cell has.
#[derive(Clone, Copy, Debug, PartialEq, Eq)]
pub struct CellStep {
    /// The cell that is parted.
    pub cell: u32,
    /// The cell into which the arcs are counted.
    pub into: u32,
}

/// A list of steps, each of which speaks of the partition that the steps before it made.
#[derive(Drop)]
pub struct CellSteps {
    items: Vec<CellStep>,
}

impl Model for CellSteps {
    ghost use Rattle.std.specs.Prelude.{List, length, ◌<◌, ◌^◌};
    ghost use Rattle.equitable.specs.declared.cell_steps.CellStep.{CellStep};

    ghost Value = { List CellStep };

    ghost view = { λ s. s.items.items };

    ghost invariant = { λ s. length s.items.items < 2 ^ 32 };
}

impl CellSteps {
    // No steps.
    pub(crate) fn new(alloc: Global) -> CellSteps
        ensures { result ≡ [] }
    {
        CellSteps {
            items: Vec::new(alloc),
        }
    }

    // Puts a step at the end.
    pub(crate) fn push(&mut self, step: CellStep) -> Result<(), NoMemory>
        requires { length self.old < 2 ^ 32 - 1 }
        ensures ok { OnOk result (self.new ≡ self.old ++ step ∷ []) }
        ensures err { OnErr result (self.new ≡ self.old) }
    {
        self.items.push(step)?;
        Ok(())
    }

    /// How many steps there are.
    pub fn len(&self) -> u32
        ensures { result ≡ length self.now }
    {
        self.items.len() as u32
    }

    /// The step at a place, counted from 0.
    pub fn at(&self, place: u32) -> CellStep
        requires { place < length self.now }
        ensures { slice_get self.now place ≡ Some result }
    {
        self.items[place as usize]
    }
}
