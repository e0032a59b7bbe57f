//! What a trace says: stages, chains of them, and claims.

ghost use Rattle.std.specs.Prelude.{◌≡◌, List, [], ◌∷◌, ◌++◌, All, OnOk, OnErr};
ghost use Rattle.pair_colours.specs.Colouring.{FitsColouring};

use crate::step_list::Steps;
use pair_colours::{Colouring, NoMemory};
use std::alloc::Global;
use std::marker::Model;

/// Raw colours, and steps that lead from where the stage starts: from the naming of its colours or,
/// after another stage, from the named meet of its colours with the partition where that one ended.
#[derive(Drop)]
pub struct Stage {
    pub colours: Colouring,
    pub steps: Steps,
}

/// A list of stages.
#[derive(Drop)]
pub struct Chain {
    stages: Vec<Stage>,
}

impl Model for Chain {
    ghost use Rattle.std.specs.Prelude.{List, All};
    ghost use Rattle.pair_colours.specs.Colouring.{FitsColouring};
    ghost use Rattle.trace_text.specs.declared.stage_list.Stage.{Stage};

    ghost Value = { List Stage };

    ghost view = { λ c. c.stages.items };

    ghost invariant = { λ c. All (λ stage. FitsColouring stage.colours) c.stages.items };
}

impl Chain {
    /// No stages.
    pub fn new(alloc: Global) -> Chain
        ensures { result ≡ [] }
    {
        Chain {
            stages: Vec::new(alloc),
        }
    }

    /// Puts a stage at the end. After `NoMemory` the stage is gone.
    pub fn push(&mut self, stage: Stage) -> Result<(), NoMemory>
        ensures ok { OnOk result (self.new ≡ self.old ++ stage ∷ []) }
        ensures err { OnErr result (self.new ≡ self.old) }
    {
        // What is known of the size is kept as a fact about the chain.
        let _points = stage.colours.size();
        self.stages.push(stage)?;
        Ok(())
    }

    /// The stages.
    pub fn as_slice(&self) -> &[Stage]
        ensures stages { result.now ≡ self.now }
        ensures within { All (λ stage. FitsColouring stage.colours) self.now }
    {
        &self.stages
    }
}

/// A chain, and a colouring that is claimed to be the closure of the colours of its last stage.
#[derive(Drop)]
pub struct Claim {
    /// The version of the format: 1, in which no step is a round, or 2.
    pub version: u32,
    pub chain: Chain,
    pub closure: Colouring,
}
