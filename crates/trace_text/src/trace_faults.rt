//! What is wrong with a text that is no trace.

ghost use Rattle.std.specs.Prelude.{◌≡◌};
ghost use Rattle.trace_text.specs.declared.trace_faults.TraceFault.TheVariants as faults;

use pair_colours::NoMemory;
use thiserror::Error;

/// What was expected in the place of a line of a trace.
#[derive(Clone, Copy, Debug, PartialEq, Eq)]
pub enum TraceWord {
    /// The line `trace 1` or `trace 2`, the first.
    Head,
    /// The line `points N`, the second.
    Points,
    /// The line `stage`, the third.
    Stage,
    /// A row of raw colours, after `stage`, `closure` or another row.
    Row,
    /// A step, `stage` or `closure`, after the rows of a stage.
    Body,
    /// The line `end`, after the rows of the closure.
    End,
    /// Nothing, after the line `end`.
    Extra,
}

impl TraceWord {
    ghost use Rattle.trace_text.specs.TraceWord.{trace_word};

    /// The word of the fault, which is the name of its variant.
    pub fn as_str(self) -> &'static str
        ensures { result.now ≡ trace_word self }
    {
        match self {
            TraceWord::Head => "Head",
            TraceWord::Points => "Points",
            TraceWord::Stage => "Stage",
            TraceWord::Row => "Row",
            TraceWord::Body => "Body",
            TraceWord::End => "End",
            TraceWord::Extra => "Extra",
        }
    }
}

/// Why a text was not read as a trace.
#[derive(Clone, Copy, Debug, PartialEq, Eq, Error)]
pub enum TraceFault {
    /// The first line that may not stand in its place, counted from 1, and what was expected. Where
    /// the text ends too early, it is the line after its last.
    #[error("the text is no trace")]
    Text { line: u32, what: TraceWord },
    /// There is not enough memory.
    #[error("out of memory")]
    NoMemory,
}

impl From<NoMemory> for TraceFault {
    ghost from_gives = { λ _ fault. fault ≡ faults.NoMemory };

    fn from(_error: NoMemory) -> TraceFault {
        TraceFault::NoMemory
    }
}
