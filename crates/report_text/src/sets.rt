//! Answers that list sets of colours.

ghost use Rattle.std.specs.Prelude.{◌≡◌, IfOk};
ghost use Rattle.report_text.specs.Sets.{set_word, sets_text_of};

use crate::entries::put_entries;
use pair_colours::NoMemory;
use std::alloc::Global;
use text_lines::Text;
use visitors::Visitor;

/// Which sets of colours an answer lists, told by its first line.
#[derive(Clone, Copy, Debug, PartialEq, Eq)]
pub enum SetHead {
    /// The closed subsets.
    Closed,
    /// The good subsets.
    Good,
}

impl SetHead {
    // The word of the first line.
    fn word(self) -> &'static [u8]
        ensures { result.now ≡ set_word self }
    {
        match self {
            SetHead::Closed => b"closed",
            SetHead::Good => b"good",
        }
    }
}

/// The answer that lists the sets that a visitor met: the word, a line for each set with its colours
/// in the order of the entry, and `end`.
pub fn sets_text(alloc: Global, head: SetHead, visitor: &dyn Visitor) -> Result<Vec<u8>, NoMemory>
    ensures { IfOk result (λ text. text.items ≡ sets_text_of head (met visitor.now)) }
{
    let mut text = Text::new(alloc);
    text.put(head.word())?;
    text.put(b"\n")?;
    put_entries(&mut text, visitor, visitor.len())?;
    text.put(b"end\n")?;
    Ok(text.into_bytes())
}
