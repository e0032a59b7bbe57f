//! The closure of a colouring, with the steps that lead to it.

ghost use Rattle.std.specs.Prelude.{◌≡◌, None, Some, IfOk, IfSome, OnOk, option_copied};
ghost use Rattle.pair_colours.specs.Closure.{Coherent, IsClosureOf};
ghost use Rattle.trace_text.specs.Chains.{stage_start};
ghost use Rattle.wl_refine.specs.Closed.{IsForced, IsReached};
ghost use Rattle.wl_refine.specs.Way.{LeadsOn};

use crate::finishing::finish;
use crate::ways::Way;
use pair_colours::{Colouring, NoMemory};
use split_cells::Cells;
use std::alloc::Global;
use trace_text::{Steps, start_of};

/// A closure, and how it was reached.
#[derive(Drop)]
pub struct Closed {
    /// The closure: its colours are named in the order of the naming walk.
    pub matrix: Colouring,
    /// The same classes, with the numbers that the steps gave them.
    pub last: Colouring,
    /// The steps, none of them idle.
    pub steps: Steps,
}

// Goes on to a coherent partition, and gives it as a colouring.
fn end_of(alloc: Global, way: &mut Way) -> Result<Colouring, NoMemory>
    ensures on { OnOk result (LeadsOn way.old way.new) }
    ensures coherent { OnOk result (Coherent way.new.cells) }
    ensures last { IfOk result (λ last. last ≡ way.new.cells) }
{
    finish(alloc, way)?;
    way.cells().colouring(alloc)
}

// What is reached from a partition.
fn reached(alloc: Global, start: Cells) -> Result<Closed, NoMemory>
    ensures { IfOk result (IsReached start) }
{
    let mut way = Way::from(alloc, start);
    let last = end_of(alloc, &mut way)?;
    let steps = way.into_steps();
    let matrix = last.named(alloc)?;
    Ok(Closed {
        matrix,
        last,
        steps,
    })
}

// The closure of a colouring, with steps that lead to it from where a stage of it starts after one that
// ended at a partition, if one did.
fn close_after(alloc: Global, raw: &Colouring, last: Option<&Colouring>) -> Result<Closed, NoMemory>
    requires sizes { IfSome (option_copied last) (λ last. raw.now.size ≡ last.size) }
    requires forced { IfSome (option_copied last) (IsForced raw.now) }
    ensures closure { IfOk result (λ closed. IsClosureOf closed.matrix raw.now) }
    ensures reached { IfOk result (IsReached (stage_start (option_copied last.entry) raw.now)) }
{
    let _size = raw.size();
    let start = start_of(alloc, last, raw)?;
    let cells = Cells::of(alloc, &start)?;
    reached(alloc, cells)
}

/// The closure of a colouring: the coarsest coherent configuration that refines it (Weisfeiler and
/// Leman, 1968), with steps that lead to it from the naming of the colouring.
pub fn close(alloc: Global, raw: &Colouring) -> Result<Closed, NoMemory>
    ensures closure { IfOk result (λ closed. IsClosureOf closed.matrix raw.now) }
    ensures reached { IfOk result (IsReached (stage_start None raw.now)) }
{
    close_after(alloc, raw, None)
}

/// The same closure, with steps that lead to it from the named meet of the colouring and another,
/// which parts no pairs that the closure leaves together: where a closure of a coarser colouring
/// ended, say.
pub fn close_from(alloc: Global, raw: &Colouring, last: &Colouring) -> Result<Closed, NoMemory>
    requires sizes { last.now.size ≡ raw.now.size }
    requires forced { IsForced raw.now last.now }
    ensures closure { IfOk result (λ closed. IsClosureOf closed.matrix raw.now) }
    ensures reached { IfOk result (IsReached (stage_start (Some last.now) raw.now)) }
{
    close_after(alloc, raw, Some(last))
}
