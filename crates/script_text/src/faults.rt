//! What is wrong with a text that is no script.

ghost use Rattle.std.specs.Prelude.{◌≡◌};
ghost use Rattle.script_text.specs.Answers.{at_line};
ghost use Rattle.script_text.specs.declared.faults.LineFault.TheVariants.{NoMemory};

use std::alloc::{AllocError, AllocFailed};
use thiserror::Error;

/// The word for a line that is refused, in the order in which one line is tested.
#[derive(Clone, Copy, Debug, PartialEq, Eq)]
pub enum ScriptWord {
    /// The script has more lines than `MOST_LINES`.
    TooManyLines,
    /// A byte that is neither a tab nor a printable character of ASCII.
    BadByte,
    /// The words begin no line of the language.
    UnknownWord,
    /// The line has too few or too many words.
    WrongCount,
    /// A word in the place of a number is not in the number form.
    BadNumber,
    /// The number of mergings asked for is out of range.
    BadLimit,
    /// The name of a file is `-`, which stands for standard input.
    BadName,
    /// The script has more product lines than `MOST_PRODUCTS`.
    TooManyProducts,
}

impl ScriptWord {
    ghost use Rattle.script_text.specs.ScriptWord.{script_word};

    /// The word of the fault, which is the name of its variant.
    pub fn as_str(self) -> &'static str
        ensures { result.now ≡ script_word self }
    {
        match self {
            ScriptWord::TooManyLines => "TooManyLines",
            ScriptWord::BadByte => "BadByte",
            ScriptWord::UnknownWord => "UnknownWord",
            ScriptWord::WrongCount => "WrongCount",
            ScriptWord::BadNumber => "BadNumber",
            ScriptWord::BadLimit => "BadLimit",
            ScriptWord::BadName => "BadName",
            ScriptWord::TooManyProducts => "TooManyProducts",
        }
    }
}

/// Why a text was not read as a script.
#[derive(Clone, Copy, Debug, PartialEq, Eq, Error)]
pub enum ScriptFault {
    /// The first line that has a fault, counted from 1, with its first fault.
    #[error("the text is no script")]
    Text { line: u32, what: ScriptWord },
    /// There is not enough memory.
    #[error("out of memory")]
    NoMemory,
}

// Why one line was not read.
#[derive(Clone, Copy, Debug, PartialEq, Eq)]
pub(crate) enum LineFault {
    // The fault of the first test that holds.
    Word(ScriptWord),
    // There is not enough memory.
    NoMemory,
}

impl LineFault {
    // The fault as that of a script, on the line with this number.
    pub(crate) fn at_line(self, line: u32) -> ScriptFault
        ensures { result ≡ at_line line self }
    {
        match self {
            LineFault::Word(what) => ScriptFault::Text { line, what },
            LineFault::NoMemory => ScriptFault::NoMemory,
        }
    }
}

impl<T: Drop> From<AllocFailed<T>> for ScriptFault {
    ghost use Rattle.script_text.specs.declared.faults.ScriptFault.TheVariants as faults;

    ghost from_gives = { λ _ fault. fault ≡ faults.NoMemory };

    fn from(_error: AllocFailed<T>) -> ScriptFault {
        ScriptFault::NoMemory
    }
}

impl From<pair_colours::NoMemory> for LineFault {
    ghost from_gives = { λ _ fault. fault ≡ NoMemory };

    fn from(_error: pair_colours::NoMemory) -> LineFault {
        LineFault::NoMemory
    }
}

impl From<AllocError> for LineFault {
    ghost from_gives = { λ _ fault. fault ≡ NoMemory };

    fn from(_error: AllocError) -> LineFault {
        LineFault::NoMemory
    }
}

impl<T: Drop> From<AllocFailed<T>> for LineFault {
    ghost from_gives = { λ _ fault. fault ≡ NoMemory };

    fn from(_error: AllocFailed<T>) -> LineFault {
        LineFault::NoMemory
    }
}
