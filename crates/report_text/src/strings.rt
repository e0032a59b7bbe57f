//! Answers that show growth strings.

ghost use Rattle.std.specs.Prelude.{◌≡◌, ◌+◌, ◌≤◌, ◌++◌, IfOk, OnOk, length};
ghost use Rattle.report_text.specs.Strings.{close_text_of, mergings_end, mergings_text_of};

use crate::entries::{put_entries, put_entry};
use pair_colours::NoMemory;
use std::alloc::{AllocError, Global};
use text_lines::Text;
use visitors::Visitor;

/// The answer that shows the string of a closed merging, on one line.
pub fn close_text(alloc: Global, string: &[u32]) -> Result<Vec<u8>, NoMemory>
    requires some { 1 ≤ length string.now }
    ensures { IfOk result (λ text. text.items ≡ close_text_of string.now) }
{
    let mut text = Text::new(alloc);
    text.put_line(b"close ", string)?;
    Ok(text.into_bytes())
}

/// The answer that lists the strings that a visitor met, at most `most` of them, a line each. `end`
/// follows where these are all; where one more was met, `next after` and the last string shown.
pub fn mergings_text(alloc: Global, visitor: &dyn Visitor, most: u32) -> Result<Vec<u8>, NoMemory>
    requires some { 1 ≤ most }
    requires few { length (met visitor.now) ≤ most + 1 }
    ensures { IfOk result (λ text. text.items ≡ mergings_text_of (met visitor.now) most) }
{
    let mut text = Text::new(alloc);
    text.put(b"mergings\n")?;
    put_entries(&mut text, visitor, most.min(visitor.len()))?;
    put_end(&mut text, visitor, most)?;
    Ok(text.into_bytes())
}

// Puts the last line of such a list at the end.
fn put_end(text: &mut Text, visitor: &dyn Visitor, most: u32) -> Result<(), AllocError>
    requires { 1 ≤ most }
    ensures { OnOk result (text.new ≡ text.old ++ mergings_end (met visitor.now) most) }
{
    if most < visitor.len() {
        text.put(b"next after ")?;
        put_entry(text, visitor, most - 1)
    } else {
        text.put(b"end\n")
    }
}
