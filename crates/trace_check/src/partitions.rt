//! Where stages start.

ghost use Rattle.std.specs.Prelude.{◌≡◌, IfOk, IfSome, option_copied};
ghost use Rattle.trace_text.specs.Chains.{stage_start};

use pair_colours::{Colouring, NoMemory};
use split_cells::Cells;
use std::alloc::Global;
use trace_text::start_of;

// A partition as a colouring, if there is one.
fn colouring_of(alloc: Global, last: Option<&Cells>) -> Result<Option<Colouring>, NoMemory>
    ensures { IfOk result (λ partition. partition ≡ option_copied last.entry) }
{
    match last {
        None => Ok(None),
        Some(cells) => Ok(Some(cells.colouring(alloc)?)),
    }
}

// Where a stage of these colours starts, after one that ended with a partition, if one did.
pub(crate) fn start_cells(
    alloc: Global,
    last: Option<&Cells>,
    colours: &Colouring,
) -> Result<Cells, NoMemory>
    requires { IfSome (option_copied last) (λ last. colours.now.size ≡ last.size) }
    ensures { IfOk result (λ cells. cells ≡ stage_start (option_copied last.entry) colours.now) }
{
    let partition = colouring_of(alloc, last)?;
    let start = start_of(alloc, partition.as_ref(), colours)?;
    Cells::of(alloc, &start)
}
