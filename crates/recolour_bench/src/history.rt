//! The history of a colouring under edits.

ghost use Rattle.std.specs.Prelude.{◌≡◌, ◌≢◌, ◌+◌, ◌≤◌, All, IfOk, IfErr, None, OnOk, OnErr, length};
ghost use Rattle.pair_colours.specs.Colouring.{PairColouring, IsColouring, IsRawColouring};
ghost use Rattle.pair_colours.specs.Closure.{IsClosureOf};
ghost use Rattle.trace_text.specs.RoundChains.{AreFollowing};
ghost use Rattle.recolour_bench.specs.Edits.{IsRawEdit, edit_of};
ghost use Rattle.recolour_bench.specs.History.{IsHistory, Starts, present, present_chain};
ghost use Rattle.recolour_bench.specs.Steps.{edits, undoes, redoes, Accepts, IsRefused, Step};

use crate::chaining::{Made, made_after, made_by};
use crate::edits::{Edit, EditFault};
use crate::kept::{Kept, put_after, stages_from};
use crate::making::next_by;
use pair_colours::{Colouring, MOST_COLOUR, NoMemory};
use std::alloc::Global;
use std::marker::Model;
use trace_text::Stage;

/// The greatest position: a history has at most one entry more.
pub const MOST_POSITION: u32 = 256;

/// The colourings that a run of edits has made, the present one among them, each with its closure
/// and the chain of stages that shows it. Later ones, from which the history has moved back, are
/// kept until an edit takes their place.
#[derive(Drop)]
pub struct Bench {
    // The stage of each entry. Its colours are the colouring.
    stages: Vec<Stage>,
    kept: Vec<Kept>,
    position: u32,
    alloc: Global,
}

impl Model for Bench {
    ghost use Rattle.recolour_bench.specs.History.{History};
    ghost use Rattle.recolour_bench.specs.Kept.{history_of, IsKeptHistory};

    ghost Value = { History };

    ghost view = { λ b. history_of b.stages.items b.kept.items b.position };

    ghost invariant = { λ b. IsKeptHistory b.stages.items b.kept.items b.position };
}

impl Bench {
    /// Starts a history with one entry.
    pub fn new(alloc: Global, raw: Colouring) -> Result<Bench, NoMemory>
        requires { All (λ colour. colour ≤ MOST_COLOUR) raw.colours }
        ensures started { IfOk result (Starts raw) }
        ensures within { IfOk result IsHistory }
    {
        let made = made_after(alloc, false, raw, None, 0)?;
        let mut stages = Vec::new(alloc);
        stages.push(made.stage)?;
        let mut kept = Vec::new(alloc);
        kept.push(made.kept)?;
        Ok(Bench {
            stages,
            kept,
            position: 0,
            alloc,
        })
    }

    /// The place of the present entry, from 0.
    pub fn position(&self) -> u32
        ensures position { result ≡ self.now.position }
        ensures within { IsHistory self.now }
    {
        self.position
    }

    /// The place of the last entry.
    pub fn last_position(&self) -> u32
        ensures last { result + 1 ≡ length self.now.entries }
        ensures within { IsHistory self.now }
    {
        (self.stages.len() - 1) as u32
    }

    /// The present colouring.
    pub fn present(&self) -> &Colouring
        ensures value { result.now ≡ present self.now }
        ensures within { IsRawColouring result.now }
    {
        &self.stages[self.position as usize].colours
    }

    /// The closure of the present colouring, number for number as it is computed from scratch.
    pub fn closure(&self) -> &Colouring
        ensures value { IsClosureOf result.now (present self.now) }
        ensures only { (K : PairColouring) → IsClosureOf K (present self.now) → K ≡ result.now }
        ensures within { IsRawColouring result.now }
    {
        &self.kept[self.position as usize].closure
    }

    /// The stages that show the closure, the last of them of the present colouring. Where the
    /// present colouring refines the one before, they are the chain of that one and a stage more. The
    /// colours of each stage refine those of the stage before, so that there are rounds over them.
    pub fn chain(&self) -> &[Stage]
        ensures value { result.now ≡ present_chain self.now }
        ensures within { All (λ stage. IsRawColouring stage.colours) result.now }
        ensures colourings { All (λ stage. IsColouring stage.colours) result.now }
        ensures following { AreFollowing None result.now }
        ensures few { length result.now ≤ MOST_POSITION + 1 }
    {
        let place = self.position as usize;
        stages_from(&self.stages, self.kept[place].start, place + 1)
    }

    /// Cuts the later entries, appends what the edit makes of the present colouring, and moves to
    /// it. After any fault the bench is as it was, its later entries too.
    pub fn edit(&mut self, edit: &Edit) -> Result<(), EditFault>
        requires { IsRawEdit (edit_of edit.now) }
        ensures accepted { OnOk result (Accepts self.old (edits (edit_of edit.now)) self.new) }
        ensures refused { IfErr result (λ fault. fault ≢ EditFault.NoMemory → IsRefused self.old (edits (edit_of edit.now)) fault) }
        ensures unchanged { OnErr result (self.new ≡ self.old) }
        ensures step { result ≢ Err EditFault.NoMemory → Step self.old (edits (edit_of edit.now)) self.new }
        ensures within { IsHistory self.new }
    {
        let place = self.position as usize;
        let before = &self.stages[place].colours;
        let now = &self.kept[place];
        let raw = next_by(self.alloc, before, &now.closure, self.position, edit)?;
        let Made { stage, kept } = made_by(self.alloc, edit, raw, before, now, place)?;
        put_after(&mut self.stages, &mut self.kept, place, stage, kept)?;
        self.position += 1;
        Ok(())
    }

    /// Moves back to the entry before.
    pub fn undo(&mut self) -> Result<(), EditFault>
        ensures accepted { OnOk result (Accepts self.old undoes self.new) }
        ensures refused { IfErr result (IsRefused self.old undoes) }
        ensures unchanged { OnErr result (self.new ≡ self.old) }
        ensures step { Step self.old undoes self.new }
        ensures within { IsHistory self.new }
    {
        if self.position == 0 {
            return Err(EditFault::NothingToUndo);
        }
        self.position -= 1;
        Ok(())
    }

    /// Moves on to the entry after.
    pub fn redo(&mut self) -> Result<(), EditFault>
        ensures accepted { OnOk result (Accepts self.old redoes self.new) }
        ensures refused { IfErr result (IsRefused self.old redoes) }
        ensures unchanged { OnErr result (self.new ≡ self.old) }
        ensures step { Step self.old redoes self.new }
        ensures within { IsHistory self.new }
    {
        if self.position as usize + 1 == self.stages.len() {
            return Err(EditFault::NothingToRedo);
        }
        self.position += 1;
        Ok(())
    }
}
