//! How a run ended.

ghost use Rattle.std.specs.Prelude.{◌≡◌};

/// What `run` answers.
#[derive(Clone, Copy, Debug, PartialEq, Eq)]
pub enum Status {
    /// The answers were written whole; where a trace was checked, it is accepted.
    Done,
    /// A trace was checked and is not accepted; its line was written whole.
    CheckedNo,
    /// The words fit no form.
    Usage,
    /// A text that was loaded is over its limit or outside its grammar.
    BadInput,
    /// A file is not there, or the store failed.
    StoreFailed,
    /// The output failed; what it took is a front of the answers.
    SinkFailed,
    /// There is not enough memory.
    NoMemory,
}

impl Status {
    ghost use Rattle.cohere_core.specs.Code.{code_of};

    /// The exit status of the program, 0 to 6 in the order of the variants.
    pub fn code(&self) -> u8
        ensures { result ≡ code_of self.now }
    {
        match self {
            Status::Done => 0,
            Status::CheckedNo => 1,
            Status::Usage => 2,
            Status::BadInput => 3,
            Status::StoreFailed => 4,
            Status::SinkFailed => 5,
            Status::NoMemory => 6,
        }
    }
}
