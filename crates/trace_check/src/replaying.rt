//! The stages of a claim, gone through step by step.

ghost use Rattle.std.specs.Prelude.{◌≡◌, ◌↔◌, ℕ, ◌∷◌, [], ◌+◌, ◌^◌, ◌<◌, IsTrue, length, Some, OnOk, IfOk, IfSome, IfNone};
ghost use Rattle.pair_colours.specs.Colouring.{IsColouring};
ghost use Rattle.trace_text.specs.Split.{HasParts, IsSplit, Lead, NamesClasses, split_of};
ghost use Rattle.trace_text.specs.Chains.{Follows, IsStageOf, partition_before, stage_end, stage_start};
ghost use Rattle.trace_text.specs.BadLines.{IsFirstFailing, line_count_of_stage, stage_conditions, step_conditions};
ghost use Rattle.trace_check.specs.Ends.{before_of};
ghost use Rattle.trace_text.specs.Ends.{IsEnd};

use crate::partitions::start_cells;
use pair_colours::{Colouring, NoMemory};
use split_cells::Cells;
use std::alloc::Global;
use trace_text::{CheckWord, Stage, Step, Steps};

// A line that is bad, and what is wrong there.
#[derive(Clone, Copy)]
pub(crate) struct BadLine {
    pub(crate) line: u32,
    pub(crate) what: CheckWord,
}

// Splits the classes by a step that names numbers of classes, and says whether some class had two
// parts.
fn split(alloc: Global, cells: &mut Cells, step: Step) -> Result<bool, NoMemory>
    requires { NamesClasses cells.old step }
    ensures parts { OnOk result (cells.new ≡ split_of cells.old step) }
    ensures split { IfOk result (λ split. IsTrue split ↔ HasParts cells.old step) }
{
    match step {
        Step::Round => cells.round(alloc),
        one_class => Ok(cells.split(one_class)),
    }
}

// Makes a step, or tells why it is bad.
fn make(alloc: Global, cells: &mut Cells, step: Step) -> Result<Option<CheckWord>, NoMemory>
    ensures split { IfOk result (λ bad. IfNone bad (IsSplit cells.old step cells.new)) }
    ensures refused { IfOk result (λ bad. IfSome bad (λ what. (line : ℕ) → IsFirstFailing (step_conditions line cells.old (step ∷ [])) line what)) }
{
    let named = cells.names(step);
    if !named {
        return Ok(Some(CheckWord::NoSuchClass));
    }
    let split = split(alloc, cells, step)?;
    if !split {
        return Ok(Some(CheckWord::IdleStep));
    }
    Ok(None)
}

// Makes the steps, the first of which stands on this line, up to the first that is bad.
fn follow(
    alloc: Global,
    cells: &mut Cells,
    steps: &Steps,
    line: u32,
) -> Result<Option<BadLine>, NoMemory>
    requires { line + length steps.now < 2 ^ 32 }
    ensures led { IfOk result (λ bad. IfNone bad (Lead steps.now cells.old cells.new)) }
    ensures refused { IfOk result (λ bad. IfSome bad (λ bad. IsFirstFailing (step_conditions line cells.old steps.now) bad.line bad.what)) }
{
    for i in 0..steps.len() {
        if let Some(what) = make(alloc, cells, steps.at(i))? {
            return Ok(Some(BadLine {
                line: line + i,
                what,
            }));
        }
    }
    Ok(None)
}

// A stage that was gone through: its colours, and the partition after its steps.
#[derive(Drop)]
pub(crate) struct Ended<'a> {
    pub(crate) colours: &'a Colouring,
    pub(crate) cells: Cells,
}

// Where a stage of these colours starts, unless they do not refine those of the stage before.
fn start(
    alloc: Global,
    before: &Option<Ended<'_>>,
    colours: &Colouring,
) -> Result<Option<Cells>, NoMemory>
    requires before { IsEnd (before_of before.now) }
    requires colours { IsColouring colours.now }
    ensures start { IfOk result (λ start. IfSome start (λ cells. cells ≡ stage_start (partition_before (before_of before.now)) colours.now)) }
    ensures follows { IfOk result (λ start. IfSome start (λ _. Follows (before_of before.now) colours.now)) }
    ensures none { IfOk result (λ start. IfNone start (¬ Follows (before_of before.now) colours.now)) }
{
    match before {
        None => Ok(Some(start_cells(alloc, None, colours)?)),
        Some(end) => {
            let refining = colours.refines(alloc, end.colours)?;
            if !refining {
                return Ok(None);
            }
            Ok(Some(start_cells(alloc, Some(&end.cells), colours)?))
        }
    }
}

// Goes through a stage that begins with this line, after the last one, and then that is the last; or
// gives its first bad line.
pub(crate) fn replay<'a>(
    alloc: Global,
    last: &mut Option<Ended<'a>>,
    stage: &'a Stage,
    line: u32,
) -> Result<Option<BadLine>, NoMemory>
    requires before { IsEnd (before_of last.old) }
    requires lines { line + line_count_of_stage stage.now < 2 ^ 32 }
    ensures ended { IfOk result (λ bad. IfNone bad (before_of last.new ≡ Some (stage_end (before_of last.old) stage.now))) }
    ensures stage { IfOk result (λ bad. IfNone bad (IsStageOf (before_of last.old) stage.now (stage_end (before_of last.old) stage.now).partition)) }
    ensures between { IfOk result (λ bad. IfNone bad (IsEnd (Some (stage_end (before_of last.old) stage.now)))) }
    ensures refused { IfOk result (λ bad. IfSome bad (λ bad. IsFirstFailing (stage_conditions line (before_of last.old) stage.now) bad.line bad.what)) }
{
    let first_step = line + 1 + stage.colours.size();
    let Some(mut cells) = start(alloc, last, &stage.colours)? else {
        return Ok(Some(BadLine {
            line,
            what: CheckWord::StageNotRefining,
        }));
    };
    let bad = follow(alloc, &mut cells, &stage.steps, first_step)?;
    *last = Some(Ended {
        colours: &stage.colours,
        cells,
    });
    Ok(bad)
}
