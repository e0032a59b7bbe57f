//! Where a stage starts.

ghost use Rattle.std.specs.Prelude.{◌≡◌, IfOk, IfSome, option_copied};
ghost use Rattle.trace_text.specs.Chains.{stage_start};
ghost use Rattle.trace_text.specs.Partition.{IsPartition};

use pair_colours::{Colouring, NoMemory};
use std::alloc::Global;

/// Where a stage of these colours starts: at their naming or, after a stage that ended at a partition,
/// at their named meet with it.
pub fn start_of(
    alloc: Global,
    last: Option<&Colouring>,
    colours: &Colouring,
) -> Result<Colouring, NoMemory>
    requires sizes { IfSome (option_copied last) (λ last. colours.now.size ≡ last.size) }
    ensures start { IfOk result (λ start. start ≡ stage_start (option_copied last.entry) colours.now) }
    ensures partition { IfOk result IsPartition }
{
    // What is known of the size is kept as a fact about the colouring.
    let _points = colours.size();
    match last {
        None => colours.named(alloc),
        Some(last) => colours.meet(alloc, last),
    }
}
