//! The lines of what a visitor met.

ghost use Rattle.std.specs.Prelude.{◌≡◌, ◌++◌, ◌<◌, ◌≤◌, OnOk, length, take};
ghost use Rattle.visitors.specs.Entries.{entry_at};
ghost use Rattle.report_text.specs.Entries.{entry_line, entry_lines};
ghost use Rattle.text_lines.specs.Joined.{spaced};

use std::alloc::AllocError;
use text_lines::Text;
use visitors::Visitor;

/// Puts the lines of the first `count` entries at the end, each with single spaces between its numbers.
pub fn put_entries(text: &mut Text, visitor: &dyn Visitor, count: u32) -> Result<(), AllocError>
    requires { count ≤ length (met visitor.now) }
    ensures { OnOk result (text.new ≡ text.old ++ entry_lines (take count (met visitor.now))) }
{
    for entry in 0..count {
        put_entry(text, visitor, entry)?;
    }
    Ok(())
}

// Puts the line of an entry at the end.
pub(crate) fn put_entry(
    text: &mut Text,
    visitor: &dyn Visitor,
    entry: u32,
) -> Result<(), AllocError>
    requires { entry < length (met visitor.now) }
    ensures { OnOk result (text.new ≡ text.old ++ entry_line (entry_at (met visitor.now) entry)) }
{
    put_numbers(text, visitor, entry)?;
    text.put(b"\n")
}

// Puts the numbers of an entry at the end, with single spaces.
fn put_numbers(text: &mut Text, visitor: &dyn Visitor, entry: u32) -> Result<(), AllocError>
    requires { entry < length (met visitor.now) }
    ensures { OnOk result (text.new ≡ text.old ++ spaced (entry_at (met visitor.now) entry)) }
{
    for place in 0..visitor.width(entry) {
        text.put_next(b' ', place as usize, visitor.number(entry, place))?;
    }
    Ok(())
}
