//! A partition, and the steps that made it.

ghost use Rattle.std.specs.Prelude.{◌≡◌, ◌↔◌, [], IsTrue, IfOk, OnOk};
ghost use Rattle.std.specs.List.{AllByRecursion};
ghost use Rattle.trace_text.specs.Partition.{IsPartition};
ghost use Rattle.trace_text.specs.Split.{HasParts, NamesClasses, split_of};
ghost use Rattle.trace_text.specs.Versions.{HasStep};
ghost use Rattle.wl_refine.specs.Way.{LeadsOn};

use pair_colours::{Colouring, NoMemory};
use split_cells::Cells;
use std::alloc::Global;
use std::marker::Model;
use trace_text::{Step, Steps};

// A partition, and the steps that led to it, each on one class and none of them idle. So there are
// fewer of them than classes.
#[derive(Drop)]
pub(crate) struct Way {
    cells: Cells,
    steps: Steps,
}

impl Model for Way {
    ghost use Rattle.std.specs.Prelude.{◌<◌, length};
    ghost use Rattle.pair_colours.specs.Naming.{rank_of};
    ghost use Rattle.std.specs.List.{AllByRecursion};
    ghost use Rattle.trace_text.specs.Versions.{HasStep};
    ghost use Rattle.wl_refine.specs.Way.{Walked};

    ghost Value = { Walked };

    ghost view = { λ w. record { steps = w.steps; cells = w.cells } };

    ghost invariant = { λ w. (length w.steps < rank_of w.cells) × AllByRecursion (HasStep 1) w.steps };
}

impl Way {
    // No steps yet.
    pub(crate) fn from(alloc: Global, start: Cells) -> Way
        ensures steps { result.steps ≡ [] }
        ensures cells { result.cells ≡ start }
        ensures within { IsPartition result.cells }
    {
        let _rank = start.rank();
        Way {
            cells: start,
            steps: Steps::new(alloc),
        }
    }

    // The partition.
    pub(crate) fn cells(&self) -> &Cells
        ensures { result.now ≡ self.now.cells }
    {
        &self.cells
    }

    // Makes a step on one class, and says whether it was one: an idle one is not taken up.
    pub(crate) fn make(&mut self, step: Step) -> Result<bool, NoMemory>
        requires one_class { HasStep 1 step }
        requires names { NamesClasses self.old.cells step }
        ensures on { OnOk result (LeadsOn self.old self.new) }
        ensures parts { OnOk result (self.new.cells ≡ split_of self.old.cells step) }
        ensures split { IfOk result (λ split. IsTrue split ↔ HasParts self.old.cells step) }
    {
        let _before = self.cells.rank();
        let split = self.cells.split(step);
        let _after = self.cells.rank();
        if split {
            self.steps.push(step)?;
        }
        Ok(split)
    }

    // The steps.
    pub(crate) fn into_steps(self) -> Steps
        ensures steps { result ≡ self.steps }
        ensures one_class { AllByRecursion (HasStep 1) result }
    {
        self.steps
    }
}
