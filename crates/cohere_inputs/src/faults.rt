//! Why a file is not read.

use equitable::{CellTextFault, CellWord};
use relation_text::{RelationFault, RelationWord};
use scheme_io::LoadFault;
use script_text::{ScriptFault, ScriptWord};
use std::alloc::AllocFailed;
use trace_text::{TraceFault, TraceWord};

/// Why a file is bad.
#[derive(Clone, Copy, Debug, PartialEq, Eq)]
pub enum FileFault {
    /// The store has no file of its name.
    Missing,
    /// It has more bytes than a file of its kind may have.
    TooLong,
    /// Its text is no relation at the line that was asked for; the place counts bytes from 0.
    Relation { what: RelationWord, at: u32 },
    /// Its text is no script; lines count from 1.
    Script { line: u32, what: ScriptWord },
    /// Its text is no trace: what was expected on this line, counted from 1.
    Trace { line: u32, what: TraceWord },
    /// Its text is no trace of cells: what was expected on this line, counted from 1.
    CellTrace { line: u32, what: CellWord },
}

/// Why a file was not read.
#[derive(Clone, Copy, Debug, PartialEq, Eq)]
pub enum Unread {
    /// It is bad.
    Bad(FileFault),
    /// The store failed.
    StoreFailed,
    /// There is not enough memory.
    NoMemory,
}

/// Where loading stops, and why.
#[derive(Clone, Copy, Debug)]
pub struct Halt<'a> {
    /// The name of the file.
    pub name: &'a str,
    /// Why it was not read.
    pub why: Unread,
}

impl From<LoadFault> for Unread {
    ghost use Rattle.std.specs.Prelude.{◌≡◌};
    ghost use Rattle.cohere_inputs.specs.Unread.{unread_load};

    ghost from_gives = { λ fault why. why ≡ unread_load fault };

    fn from(fault: LoadFault) -> Unread {
        match fault {
            LoadFault::NoFile => Unread::Bad(FileFault::Missing),
            LoadFault::Failed => Unread::StoreFailed,
            LoadFault::TooLong { taken: _ } => Unread::Bad(FileFault::TooLong),
            LoadFault::NoMemory => Unread::NoMemory,
        }
    }
}

impl<T: Drop> From<AllocFailed<T>> for Unread {
    ghost use Rattle.std.specs.Prelude.{◌≡◌};
    ghost use Rattle.cohere_inputs.specs.declared.faults.Unread.TheVariants.{NoMemory};

    ghost from_gives = { λ _ why. why ≡ NoMemory };

    fn from(_error: AllocFailed<T>) -> Unread {
        Unread::NoMemory
    }
}

impl From<RelationFault> for Unread {
    ghost use Rattle.std.specs.Prelude.{◌≡◌};
    ghost use Rattle.cohere_inputs.specs.Unread.{unread_relation};

    ghost from_gives = { λ fault why. why ≡ unread_relation fault };

    fn from(fault: RelationFault) -> Unread {
        match fault {
            RelationFault::Text { what, at } => Unread::Bad(FileFault::Relation { what, at }),
            RelationFault::NoMemory => Unread::NoMemory,
        }
    }
}

impl From<ScriptFault> for Unread {
    ghost use Rattle.std.specs.Prelude.{◌≡◌};
    ghost use Rattle.cohere_inputs.specs.Unread.{unread_script};

    ghost from_gives = { λ fault why. why ≡ unread_script fault };

    fn from(fault: ScriptFault) -> Unread {
        match fault {
            ScriptFault::Text { line, what } => Unread::Bad(FileFault::Script { line, what }),
            ScriptFault::NoMemory => Unread::NoMemory,
        }
    }
}

impl From<TraceFault> for Unread {
    ghost use Rattle.std.specs.Prelude.{◌≡◌};
    ghost use Rattle.cohere_inputs.specs.Unread.{unread_trace};

    ghost from_gives = { λ fault why. why ≡ unread_trace fault };

    fn from(fault: TraceFault) -> Unread {
        match fault {
            TraceFault::Text { line, what } => Unread::Bad(FileFault::Trace { line, what }),
            TraceFault::NoMemory => Unread::NoMemory,
        }
    }
}

impl From<CellTextFault> for Unread {
    ghost use Rattle.std.specs.Prelude.{◌≡◌};
    ghost use Rattle.cohere_inputs.specs.Unread.{unread_cells};

    ghost from_gives = { λ fault why. why ≡ unread_cells fault };

    fn from(fault: CellTextFault) -> Unread {
        match fault {
            CellTextFault::Text { line, what } => Unread::Bad(FileFault::CellTrace { line, what }),
            CellTextFault::NoMemory => Unread::NoMemory,
        }
    }
}
