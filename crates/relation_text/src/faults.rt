//! What is wrong with a relation text, or with what is to be written.

ghost use Rattle.std.specs.Prelude.{◌≡◌, ◌^◌, ◌<◌};
ghost use Rattle.relation_text.specs.declared.faults.RelationFault.TheVariants as faults;
ghost use Rattle.relation_text.specs.declared.faults.WriteFault.TheVariants as write_faults;

use pair_colours::NoMemory;
use std::alloc::AllocError;
use thiserror::Error;

// A fault and its byte place.
pub(crate) type Fault = (RelationWord, usize);

/// A fault of a relation text.
#[derive(Clone, Copy, Debug, PartialEq, Eq)]
pub enum RelationWord {
    /// The text has fewer lines than that.
    NoLine,
    /// A byte that cannot stand in a graph line or in a row.
    BadByte,
    /// A size below 63 in the form of four bytes.
    SizeForm,
    /// There are no points.
    NoPoints,
    /// There are more points than `MOST_POINTS`.
    TooManyPoints,
    /// The line is not as long as its size asks for.
    WrongLength,
    /// A bit that only fills up the last byte is not 0.
    PadBits,
    /// What follows `matrix ` is not one number.
    MatrixHead,
    /// A number has a leading zero.
    MatrixNumber,
    /// There are too few or too many rows or numbers.
    MatrixCount,
    /// A colour is above `MOST_COLOUR`.
    ColourTooLarge,
}

impl RelationWord {
    ghost use Rattle.relation_text.specs.RelationWord.{relation_word};

    /// The word of the fault, which is the name of its variant.
    pub fn as_str(self) -> &'static str
        ensures { result.now ≡ relation_word self }
    {
        match self {
            RelationWord::NoLine => "NoLine",
            RelationWord::BadByte => "BadByte",
            RelationWord::SizeForm => "SizeForm",
            RelationWord::NoPoints => "NoPoints",
            RelationWord::TooManyPoints => "TooManyPoints",
            RelationWord::WrongLength => "WrongLength",
            RelationWord::PadBits => "PadBits",
            RelationWord::MatrixHead => "MatrixHead",
            RelationWord::MatrixNumber => "MatrixNumber",
            RelationWord::MatrixCount => "MatrixCount",
            RelationWord::ColourTooLarge => "ColourTooLarge",
        }
    }
}

/// Why a relation was not read.
#[derive(Clone, Copy, Debug, PartialEq, Eq, Error)]
pub enum RelationFault {
    /// The text is no relation, for the reason `what` at the byte place `at`, counted from 0 in the
    /// whole text.
    #[error("the text is no relation")]
    Text { what: RelationWord, at: u32 },
    /// There is not enough memory.
    #[error("out of memory")]
    NoMemory,
}

/// Why a graph was not written.
#[derive(Clone, Copy, Debug, PartialEq, Eq, Error)]
pub enum WriteFault {
    /// The set of colours is not that of a graph, or of a digraph.
    #[error("the colours make no graph")]
    BadSet,
    /// There is not enough memory.
    #[error("out of memory")]
    NoMemory,
}

impl From<NoMemory> for WriteFault {
    ghost from_gives = { λ _ fault. fault ≡ write_faults.NoMemory };

    fn from(_error: NoMemory) -> WriteFault {
        WriteFault::NoMemory
    }
}

impl From<AllocError> for WriteFault {
    ghost from_gives = { λ _ fault. fault ≡ write_faults.NoMemory };

    fn from(_error: AllocError) -> WriteFault {
        WriteFault::NoMemory
    }
}

impl From<NoMemory> for RelationFault {
    ghost from_gives = { λ _ fault. fault ≡ faults.NoMemory };

    fn from(_error: NoMemory) -> RelationFault {
        RelationFault::NoMemory
    }
}

// The fault as it is answered.
pub(crate) fn text_fault(fault: Fault) -> RelationFault
    requires { fault.1 < 2 ^ 32 }
    ensures { result ≡ faults.Text fault.0 fault.1 }
{
    RelationFault::Text {
        what: fault.0,
        at: fault.1 as u32,
    }
}
