//! One-line answers to edits and to lines that are refused.

ghost use Rattle.std.specs.Prelude.{◌≡◌, IfOk};
ghost use Rattle.report_text.specs.EditLines.{ok_text, refused_text_of};

use pair_colours::NoMemory;
use std::alloc::Global;
use text_lines::Text;

/// The answer of an accepted edit, an undo or a redo: the size and the rank of the closure after it.
pub fn edit_text(alloc: Global, points: u32, rank: u32) -> Result<Vec<u8>, NoMemory>
    ensures { IfOk result (λ text. text.items ≡ ok_text points rank) }
{
    let mut text = Text::new(alloc);
    text.put_field(b"ok points ", points)?;
    text.put_field(b" rank ", rank)?;
    text.put(b"\n")?;
    Ok(text.into_bytes())
}

/// The answer of a line that is refused: `word` names the refusal.
pub fn refused_text(alloc: Global, word: &str) -> Result<Vec<u8>, NoMemory>
    ensures { IfOk result (λ text. text.items ≡ refused_text_of word.now) }
{
    let mut text = Text::new(alloc);
    text.put(b"refused ")?;
    text.put(word.as_bytes())?;
    text.put(b"\n")?;
    Ok(text.into_bytes())
}
