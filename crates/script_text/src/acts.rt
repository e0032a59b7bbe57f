//! What the lines of a script ask for.

ghost use Rattle.std.specs.Prelude.{◌≡◌, ℕ, List, IfOk, IfErr, string_bytes};
ghost use Rattle.std.specs.Str.{IsAscii};
ghost use Rattle.script_text.specs.declared.faults.LineFault.TheVariants.{NoMemory};

use crate::faults::LineFault;
use pair_colours::Numbers;
use std::alloc::Global;
use std::marker::Model;
use std::str;

/// The name of a file, as a script gives it.
#[derive(Drop)]
pub struct Name {
    text: String,
}

impl Model for Name {
    ghost Value = { List ℕ };

    ghost view = { λ n. string_bytes n.text };
}

impl Name {
    // The name that is spelled so.
    pub(crate) fn from_ascii(alloc: Global, bytes: &[u8]) -> Result<Name, LineFault>
        requires { IsAscii bytes.now }
        ensures ok { IfOk result (λ name. name ≡ bytes.now) }
        ensures err { IfErr result (λ fault. fault ≡ NoMemory) }
    {
        match str::from_utf8(bytes) {
            Ok(text) => Ok(Name {
                text: String::from_str(alloc, text)?,
            }),
            Err(_) => unreachable!(),
        }
    }

    /// The name as text.
    pub fn as_str(&self) -> &str
        ensures { result.now ≡ self.now }
    {
        self.text.as_str()
    }
}

/// The format in which a graph of classes is written.
#[derive(Clone, Copy, Debug, PartialEq, Eq)]
pub enum GraphForm {
    /// McKay's graph6, for graphs whose edges have no direction.
    Graph6,
    /// McKay's digraph6, for directed graphs.
    Digraph6,
}

/// What one line asks for. A growth string gives each class the number of its block: the first is
/// 0, and each new block has the next number (Knuth, The Art of Computer Programming 4A, 7.2.1.5).
#[derive(Drop)]
pub enum Act {
    /// Recolours the pair (x, y).
    Set { x: u32, y: u32, colour: u32 },
    /// Recolours the pairs (x, y) and (y, x).
    Both { x: u32, y: u32, colour: u32 },
    /// Gives the diagonal pair of a point a colour of its own.
    Fix { x: u32 },
    /// Recolours each pair of the colour `gone` with the colour `keep`.
    Join { keep: u32, gone: u32 },
    /// Takes the closure as the colouring.
    Adopt,
    /// Merges classes of the closure by a growth string.
    Fuse { string: Numbers },
    /// Takes the direct product of the closure with that of a file's relation.
    Direct { file: Name },
    /// Takes the wreath product of the closure with that of a file's relation.
    Wreath { file: Name },
    /// Steps back in the history.
    Undo,
    /// Steps forward in the history.
    Redo,
    /// Asks for the matrix of the closure.
    Show,
    /// Asks for the matrix of the colouring itself.
    Raw,
    /// Asks for the data of each class.
    Classes,
    /// Asks for the structure constants.
    Constants,
    /// Asks for the five tests of a scheme.
    Tests,
    /// Asks for the intersection array of the graph of a set of classes.
    Array { set: Numbers },
    /// Asks for the closed subsets.
    Closed,
    /// Asks for the quotient by a closed subset.
    Quotient { set: Numbers },
    /// Asks for the subscheme of a closed subset at a point.
    Sub { x: u32, set: Numbers },
    /// Asks for the growth string of the closure of a merging.
    Close { string: Numbers },
    /// Asks for the good subsets.
    Good,
    /// Asks for at most `most` fusions, from the first on or after a growth string.
    Mergings { most: u32, after: Option<Numbers> },
    /// Asks for the trace of the present colouring, in the format of this version, 1 or 2.
    Trace { version: u32 },
    /// Asks for the graph of a set of classes.
    Write { form: GraphForm, set: Numbers },
}

/// A line that asks for something.
#[derive(Drop)]
pub struct Line {
    /// The number of its line, counted from 1; blank lines and comments count.
    pub number: u32,
    /// What it asks for.
    pub act: Act,
}
