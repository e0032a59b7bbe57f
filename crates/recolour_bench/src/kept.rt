//! What a bench keeps of each entry.

ghost use Rattle.std.specs.Prelude.{◌≡◌, ◌+◌, ◌<◌, ◌≤◌, ◌++◌, [], ◌∷◌, OnOk, OnErr, drop, length, take};

use pair_colours::{Colouring, NoMemory};
use trace_text::Stage;

// What is kept of an entry beside the stage of its colouring.
#[derive(Drop)]
pub(crate) struct Kept {
    // The closure.
    pub(crate) closure: Colouring,
    // The partition where the chain of the entry ends.
    pub(crate) last: Colouring,
    // The place of the first stage of the chain.
    pub(crate) start: usize,
}

// Puts an entry after the one at the place, for all that come after it. There is room for it
// before any of them goes, so that none is lost where memory is wanting.
pub(crate) fn put_after(
    stages: &mut Vec<Stage>,
    kept: &mut Vec<Kept>,
    place: usize,
    stage: Stage,
    entry: Kept,
) -> Result<(), NoMemory>
    requires stages { place < length stages.old.items }
    requires kept { place < length kept.old.items }
    ensures stage { OnOk result (stages.new.items ≡ take (place + 1) stages.old.items ++ stage ∷ []) }
    ensures entry { OnOk result (kept.new.items ≡ take (place + 1) kept.old.items ++ entry ∷ []) }
    ensures no_stage { OnErr result (stages.new.items ≡ stages.old.items) }
    ensures no_entry { OnErr result (kept.new.items ≡ kept.old.items) }
{
    stages.reserve(1)?;
    kept.reserve(1)?;
    stages.truncate(place + 1);
    kept.truncate(place + 1);
    stages.push(stage)?;
    kept.push(entry)?;
    Ok(())
}

// The stages from one place up to another.
pub(crate) fn stages_from(stages: &[Stage], start: usize, end: usize) -> &[Stage]
    requires start { start ≤ end }
    requires end { end ≤ length stages.now }
    ensures { result.now ≡ drop start (take end stages.now) }
{
    &stages[start..end]
}
