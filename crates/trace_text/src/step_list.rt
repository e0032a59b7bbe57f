//! The steps of a trace.

ghost use Rattle.std.specs.Prelude.{◌≡◌, ℕ, ◌^◌, ◌-◌, ◌<◌, List, [], ◌∷◌, ◌++◌, length, slice_get, OnOk, OnErr};

use pair_colours::NoMemory;
use std::alloc::Global;
use std::marker::Model;

/// A step splits one class of a partition of the pairs, or each. Classes are named by their numbers.
#[derive(Clone, Copy, Debug, PartialEq, Eq)]
pub enum Step {
    /// Parts the diagonal pairs of the class from the others.
    Diag { class: u32 },
    /// Parts the pairs of the class whose transposed pair is in the class `other` from the others.
    Flip { class: u32, other: u32 },
    /// Parts the pairs of the class by how many points have the class `left` from the first point
    /// and the class `right` to the second.
    Tri { class: u32, left: u32, right: u32 },
    /// Parts the pairs of each class by the diagonal, by the class of the transposed pair, and by how
    /// many points have each class from the first point and each to the second: one round of
    /// Weisfeiler-Leman refinement.
    Round,
}

/// A list of steps.
#[derive(Drop)]
pub struct Steps {
    items: Vec<Step>,
}

impl Model for Steps {
    ghost use Rattle.std.specs.Prelude.{List, length, ◌<◌, ◌^◌};
    ghost use Rattle.trace_text.specs.declared.step_list.Step.{Step};

    ghost Value = { List Step };

    ghost view = { λ s. s.items.items };

    ghost invariant = { λ s. length s.items.items < 2 ^ 32 };
}

impl Steps {
    /// No steps.
    pub fn new(alloc: Global) -> Steps
        ensures { result ≡ [] }
    {
        Steps {
            items: Vec::new(alloc),
        }
    }

    /// Puts a step at the end.
    pub fn push(&mut self, step: Step) -> Result<(), NoMemory>
        requires { length self.old < 2 ^ 32 - 1 }
        ensures ok { OnOk result (self.new ≡ self.old ++ step ∷ []) }
        ensures err { OnErr result (self.new ≡ self.old) }
    {
        self.items.push(step)?;
        Ok(())
    }

    /// How many steps there are.
    pub fn len(&self) -> u32
        ensures { result ≡ length self.now }
    {
        self.items.len() as u32
    }

    /// The step at a place.
    pub fn at(&self, place: u32) -> Step
        requires { place < length self.now }
        ensures { slice_get self.now place ≡ Some result }
    {
        self.items[place as usize]
    }
}
