//! The stage and the closure of what an edit made.

ghost use Rattle.std.specs.Prelude.{◌≡◌, ◌+◌, ◌^◌, ◌<◌, ◌↔◌, true, None, Some, IsTrue, IfOk, IfSome, option_copied};
ghost use Rattle.pair_colours.specs.Colouring.{FitsColouring, Refines};
ghost use Rattle.pair_colours.specs.Closure.{Coherent, IsClosureOf};
ghost use Rattle.pair_colours.specs.Naming.{named_of};
ghost use Rattle.trace_text.specs.Chains.{stage_start};
ghost use Rattle.wl_refine.specs.Closed.{IsForced, IsReached};
ghost use Rattle.recolour_bench.specs.Edits.{Adopt, edit_of, makes_closure as is_closed};
ghost use Rattle.recolour_bench.specs.Kept.{IsMadeFrom};

use crate::edits::{Edit, makes_closure};
use crate::kept::Kept;
use pair_colours::{Colouring, NoMemory};
use std::alloc::Global;
use trace_text::{Stage, Steps};
use wl_refine::{Closed, close, close_from};

// A new stage of a chain, and what is kept of its entry.
#[derive(Drop)]
pub(crate) struct Made {
    pub(crate) stage: Stage,
    pub(crate) kept: Kept,
}

// Whether the chain goes on: the new colouring refines the one before. What `adopt` makes does.
pub(crate) fn chain_goes_on(
    alloc: Global,
    edit: &Edit,
    raw: &Colouring,
    before: &Colouring,
) -> Result<bool, NoMemory>
    requires { edit_of edit.now ≡ Adopt → Refines raw.now before.now }
    ensures { IfOk result (λ answer. IsTrue answer ↔ Refines raw.now before.now) }
{
    match edit {
        Edit::Adopt => Ok(true),
        _ => raw.refines(alloc, before),
    }
}

// A coherent colouring is its own closure: no step leads to it.
fn itself(alloc: Global, closure: &Colouring) -> Result<Closed, NoMemory>
    requires coherent { Coherent closure.now }
    requires named { named_of closure.now ≡ closure.now }
    ensures closure { IfOk result (λ closed. IsClosureOf closed.matrix closure.now) }
    ensures reached { IfOk result (IsReached closure.now) }
{
    // What is known of the size is kept as a fact about the colouring.
    let _points = closure.size();
    Ok(Closed {
        matrix: closure.copy(alloc)?,
        last: closure.copy(alloc)?,
        steps: Steps::new(alloc),
    })
}

// The closure of a colouring, from where a stage of it starts: after the partition where the chain before
// ended, if the chain goes on. A closure is its own.
fn closed_after(
    alloc: Global,
    is_own_closure: bool,
    raw: &Colouring,
    last: Option<&Colouring>,
) -> Result<Closed, NoMemory>
    requires sizes { IfSome (option_copied last) (λ last. last.size ≡ raw.now.size) }
    requires forced { IfSome (option_copied last) (IsForced raw.now) }
    requires closed { is_own_closure ≡ true → IsClosureOf raw.now raw.now }
    ensures closure { IfOk result (λ closed. IsClosureOf closed.matrix raw.now) }
    ensures reached { IfOk result (IsReached (stage_start (option_copied last.entry) raw.now)) }
{
    if is_own_closure {
        return itself(alloc, raw);
    }
    match last {
        None => close(alloc, raw),
        Some(last) => close_from(alloc, raw, last),
    }
}

// The stage of the new colouring, with the closure, where the chain starts at the place.
fn made_of(raw: Colouring, closed: Closed, start: usize) -> Made
    ensures colours { result.stage.colours ≡ raw }
    ensures steps { result.stage.steps ≡ closed.steps }
    ensures closure { result.kept.closure ≡ closed.matrix }
    ensures last { result.kept.last ≡ closed.last }
    ensures start { result.kept.start ≡ start }
{
    let Closed {
        matrix,
        last,
        steps,
    } = closed;
    Made {
        stage: Stage {
            colours: raw,
            steps,
        },
        kept: Kept {
            closure: matrix,
            last,
            start,
        },
    }
}

// The stage of a colouring, in a chain that starts at the place: after the partition where the chain
// before ended, if the chain goes on.
pub(crate) fn made_after(
    alloc: Global,
    is_own_closure: bool,
    raw: Colouring,
    last: Option<&Colouring>,
    start: usize,
) -> Result<Made, NoMemory>
    requires sizes { IfSome (option_copied last) (λ last. last.size ≡ raw.size) }
    requires forced { IfSome (option_copied last) (IsForced raw) }
    requires closed { is_own_closure ≡ true → IsClosureOf raw raw }
    ensures colours { IfOk result (λ made. made.stage.colours ≡ raw) }
    ensures closure { IfOk result (λ made. IsClosureOf made.kept.closure raw) }
    ensures made { IfOk result (IsMadeFrom (stage_start (option_copied last.entry) raw) start) }
    ensures within { FitsColouring raw }
{
    // What is known of the size is kept as a fact about the colouring.
    let _points = raw.size();
    let closed = closed_after(alloc, is_own_closure, &raw, last)?;
    Ok(made_of(raw, closed, start))
}

// The stage of what the edit made, for an entry after the one of the colouring before at the place.
pub(crate) fn made_by(
    alloc: Global,
    edit: &Edit,
    raw: Colouring,
    before: &Colouring,
    kept: &Kept,
    place: usize,
) -> Result<Made, NoMemory>
    requires sizes { Refines raw before.now → kept.now.last.size ≡ raw.size }
    requires forced { Refines raw before.now → IsForced raw kept.now.last }
    requires closed { is_closed (edit_of edit.now) ≡ true → IsClosureOf raw raw }
    requires refines { edit_of edit.now ≡ Adopt → Refines raw before.now }
    requires room { place < 2 ^ 32 }
    ensures colours { IfOk result (λ made. made.stage.colours ≡ raw) }
    ensures closure { IfOk result (λ made. IsClosureOf made.kept.closure raw) }
    ensures goes_on { IfOk result (λ made. Refines raw before.now → IsMadeFrom (stage_start (Some kept.now.last) raw) kept.now.start made) }
    ensures starts { IfOk result (λ made. ¬ Refines raw before.now → IsMadeFrom (stage_start None raw) (place + 1) made) }
{
    let is_own_closure = makes_closure(edit);
    if chain_goes_on(alloc, edit, &raw, before)? {
        made_after(alloc, is_own_closure, raw, Some(&kept.last), kept.start)
    } else {
        made_after(alloc, is_own_closure, raw, None, place + 1)
    }
}
