//! Why a claim is not accepted.

ghost use Rattle.std.specs.Prelude.{◌≡◌};

/// What is wrong on a line of a claim, in the order in which one line is tested.
#[derive(Clone, Copy, Debug, PartialEq, Eq)]
pub enum CheckWord {
    /// The colours of a later stage do not refine those of the stage before.
    StageNotRefining,
    /// A step names a number that no class has.
    NoSuchClass,
    /// A step leaves every class whole.
    IdleStep,
    /// The last partition is not coherent.
    NotCoherent,
    /// The claimed closure is not the naming of the last partition.
    WrongClosure,
}

impl CheckWord {
    ghost use Rattle.trace_text.specs.CheckWord.{check_word};

    /// The word of the bad line, which is the name of its variant.
    pub fn as_str(self) -> &'static str
        ensures { result.now ≡ check_word self }
    {
        match self {
            CheckWord::StageNotRefining => "StageNotRefining",
            CheckWord::NoSuchClass => "NoSuchClass",
            CheckWord::IdleStep => "IdleStep",
            CheckWord::NotCoherent => "NotCoherent",
            CheckWord::WrongClosure => "WrongClosure",
        }
    }
}
