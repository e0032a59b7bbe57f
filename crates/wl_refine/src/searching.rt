//! The search for steps. It may choose as it likes: a step is taken up only where it splits a class,
//! and the exact test of the whole decides when the partition is coherent.

ghost use Rattle.std.specs.Prelude.{OnOk, IfSome};
ghost use Rattle.trace_text.specs.Versions.{HasStep};
ghost use Rattle.wl_refine.specs.Way.{LeadsOn};

use crate::ways::Way;
use pair_colours::NoMemory;
use split_cells::{Cells, Comparison};
use std::alloc::Global;
use trace_text::Step;

// Makes a step on one class, if there is one that names classes, and says whether it split one.
#[tactic(auto, using(crate::proofs::Leading::leads_on_after, crate::proofs::Leading::leads_on_here))]
fn tried(way: &mut Way, step: Option<Step>) -> Result<bool, NoMemory>
    requires { IfSome step (HasStep 1) }
    ensures { OnOk result (LeadsOn way.old way.new) }
{
    match step {
        Some(step) => {
            let named = way.cells().names(step);
            if named { way.make(step) } else { Ok(false) }
        }
        None => Ok(false),
    }
}

// Splits class k by the class of its first transposed pair, if that has not all of them.
#[tactic(auto, using(crate::proofs::Leading::leads_on_after, crate::proofs::Leading::leads_on_here))]
fn flip(way: &mut Way, k: u32) -> Result<bool, NoMemory>
    ensures { OnOk result (LeadsOn way.old way.new) }
{
    if k >= way.cells().rank() {
        return Ok(false);
    }
    let step = way.cells().flip_step(k);
    tried(way, step)
}

// Splits class k until the transposed pairs of each part are in one class. The part of a split that
// keeps the number is such a part, and the other one has the newest number.
#[tactic(auto, using(crate::proofs::Leading::leads_on_after, crate::proofs::Leading::leads_on_here))]
fn settle(way: &mut Way, k: u32) -> Result<(), NoMemory>
    ensures { OnOk result (LeadsOn way.old way.new) }
{
    let mut rest = k;
    for _ in 0..u32::MAX {
        let split = flip(way, rest)?;
        if !split {
            break;
        }
        rest = way.cells().rank().saturating_sub(1);
    }
    Ok(())
}

// Splits all classes by the diagonal.
#[tactic(auto, using(crate::proofs::Leading::leads_on_after, crate::proofs::Leading::leads_on_here))]
fn part_diagonal(way: &mut Way) -> Result<(), NoMemory>
    ensures { OnOk result (LeadsOn way.old way.new) }
{
    for class in 0..way.cells().rank() {
        tried(way, Some(Step::Diag { class }))?;
    }
    Ok(())
}

// Splits all classes by the diagonal, and then by their transposed pairs. Both are certain, and the
// diagonal is asked only of the classes that stood at the start: no class that a later step makes
// has pairs on and off it.
#[tactic(auto, using(crate::proofs::Leading::leads_on_after, crate::proofs::Leading::leads_on_here))]
pub(crate) fn settle_all(way: &mut Way) -> Result<(), NoMemory>
    ensures { OnOk result (LeadsOn way.old way.new) }
{
    part_diagonal(way)?;
    for class in 0..way.cells().rank() {
        settle(way, class)?;
    }
    Ok(())
}

// Splits class k by a fibre that its first pair leads from or to, if not all of its pairs do.
#[tactic(auto, using(crate::proofs::Leading::leads_on_after, crate::proofs::Leading::leads_on_here))]
fn cut(way: &mut Way, k: u32) -> Result<bool, NoMemory>
    ensures { OnOk result (LeadsOn way.old way.new) }
{
    if k >= way.cells().rank() {
        return Ok(false);
    }
    let step = way.cells().fibre_step(k);
    tried(way, step)
}

// Splits class k until what is left of it leads from one fibre to one.
#[tactic(auto, using(crate::proofs::Leading::leads_on_after, crate::proofs::Leading::leads_on_here))]
fn part_by_fibres(way: &mut Way, k: u32) -> Result<(), NoMemory>
    ensures { OnOk result (LeadsOn way.old way.new) }
{
    for _ in 0..u32::MAX {
        let split = cut(way, k)?;
        if !split {
            break;
        }
    }
    Ok(())
}

// What the search keeps: numbers that look random, and room for comparing pairs.
#[derive(Drop)]
pub(crate) struct Search {
    seed: u32,
    comparison: Comparison,
}

impl Search {
    // A search on the points of these cells.
    pub(crate) fn new(alloc: Global, cells: &Cells) -> Result<Search, NoMemory> {
        Ok(Search {
            seed: 1,
            comparison: cells.comparison(alloc)?,
        })
    }

    // Splits class k by a step that a look at a few points suggests.
    #[tactic(auto, using(crate::proofs::Leading::leads_on_after, crate::proofs::Leading::leads_on_here))]
    fn guess(&mut self, way: &mut Way, k: u32) -> Result<bool, NoMemory>
        ensures { OnOk result (LeadsOn way.old way.new) }
    {
        if k >= way.cells().rank() {
            return Ok(false);
        }
        self.seed = self
            .seed
            .wrapping_mul(1_664_525)
            .wrapping_add(1_013_904_223);
        let step = way.cells().likely_step(k, self.seed);
        tried(way, step)
    }

    // Splits class k by what its pairs differ in from the first.
    #[tactic(auto, using(crate::proofs::Leading::leads_on_after, crate::proofs::Leading::leads_on_here))]
    fn compare(&mut self, way: &mut Way, k: u32) -> Result<bool, NoMemory>
        ensures { OnOk result (LeadsOn way.old way.new) }
    {
        if k >= way.cells().rank() || way.cells().len(k) < 2 {
            return Ok(false);
        }
        let step = way.cells().odd_step(k, &mut self.comparison);
        tried(way, step)
    }

    // Splits class k: guesses first, since what they suggest takes little time.
    #[tactic(auto, using(crate::proofs::Leading::leads_on_after, crate::proofs::Leading::leads_on_here))]
    fn part(&mut self, way: &mut Way, k: u32) -> Result<bool, NoMemory>
        ensures { OnOk result (LeadsOn way.old way.new) }
    {
        let first = self.guess(way, k)?;
        if first {
            return Ok(true);
        }
        let second = self.guess(way, k)?;
        if second {
            return Ok(true);
        }
        let third = self.compare(way, k)?;
        Ok(third)
    }

    // Splits class k until the pairs of what is left of it are alike.
    #[tactic(auto, using(crate::proofs::Leading::leads_on_after, crate::proofs::Leading::leads_on_here))]
    fn refine(&mut self, way: &mut Way, k: u32) -> Result<(), NoMemory>
        ensures { OnOk result (LeadsOn way.old way.new) }
    {
        for _ in 0..u32::MAX {
            let split = self.part(way, k)?;
            if !split {
                break;
            }
        }
        Ok(())
    }

    // The class of the transposed pairs, if class k has two pairs at least and that class has no
    // smaller number: only one of the two has to be refined.
    fn partner(way: &Way, k: u32) -> Option<u32> {
        if k >= way.cells().rank() || way.cells().len(k) < 2 {
            return None;
        }
        let turned = way.cells().turned_class(k)?;
        if turned < k { None } else { Some(turned) }
    }

    // Refines class k, and splits its transposed class until each part has the transposed pairs of one
    // part of class k.
    #[tactic(auto, using(crate::proofs::Leading::leads_on_after, crate::proofs::Leading::leads_on_here))]
    fn visit(&mut self, way: &mut Way, k: u32) -> Result<(), NoMemory>
        ensures { OnOk result (LeadsOn way.old way.new) }
    {
        settle(way, k)?;
        let Some(turned) = Search::partner(way, k) else {
            return Ok(());
        };
        part_by_fibres(way, k)?;
        self.refine(way, k)?;
        settle(way, turned)?;
        Ok(())
    }

    // Refines one class after the other, new ones too.
    #[tactic(auto, using(crate::proofs::Leading::leads_on_after, crate::proofs::Leading::leads_on_here))]
    pub(crate) fn sweep(&mut self, way: &mut Way) -> Result<(), NoMemory>
        ensures { OnOk result (LeadsOn way.old way.new) }
    {
        for k in 0..u32::MAX {
            if k >= way.cells().rank() {
                break;
            }
            self.visit(way, k)?;
        }
        Ok(())
    }
}
