//! The lines of a text.

ghost use Rattle.std.specs.Prelude.{◌≡◌, ◌==◌, ◌≤◌, length};
ghost use Rattle.std.specs.List.{position_or_len};
ghost use Rattle.std.specs.Str.Lines.{strip_carriage_return};
ghost use Rattle.text_lines.specs.Lines.{lines_of};

use crate::text_part::TextPart;
use std::marker::Model;

/// The lines of a text that are left to read, seen as the list of them.
///
/// A line ends at a line feed. What follows the last line feed is a line only if it is not empty.
/// One carriage return at the end of a line is not part of it.
#[derive(Drop)]
pub struct TextLines<'a> {
    place: usize,
    rest: &'a [u8],
}

impl<'a> Model for TextLines<'a> {
    ghost use Rattle.std.specs.Prelude.{List, ◌+◌, ◌^◌, ◌<◌, length};
    ghost use Rattle.text_lines.specs.Part.{Part};
    ghost use Rattle.text_lines.specs.Lines.{lines_from};

    ghost Value = { List Part };

    ghost view = { λ lines. lines_from lines.place lines.rest.now };

    ghost invariant = { λ lines. lines.place + length lines.rest.now < 2 ^ 64 };
}

impl<'a> Iterator for TextLines<'a> {
    ghost use Rattle.std.specs.Iterator.{YieldsFirstBy, item_count};
    ghost use Rattle.text_lines.specs.Views.{part_of};

    type Item = TextPart<'a>;

    ghost next_gives = { YieldsFirstBy part_of (λ lines. lines) };

    ghost remaining = { item_count (λ lines. lines) };

    fn next(&mut self) -> Option<TextPart<'a>> {
        if self.rest.is_empty() {
            return None;
        }
        let start = self.place;
        let end = line_len(self.rest);
        let bytes = without_return(&self.rest[..end]);
        let after = self.rest.len().min(end + 1);
        self.rest = self.rest.split_at(after).1;
        self.place += after;
        Some(TextPart { start, bytes })
    }
}

/// The lines of a text.
pub fn lines(text: &[u8]) -> TextLines<'_>
    ensures { result ≡ lines_of text.now }
{
    TextLines {
        place: 0,
        rest: text,
    }
}

// The line without the carriage return at its end.
fn without_return(line: &[u8]) -> &[u8]
    ensures { result.now ≡ strip_carriage_return line.now }
{
    match line {
        [front @ .., b'\r'] => front,
        _ => line,
    }
}

// How many bytes come before the first line feed.
fn line_len(text: &[u8]) -> usize
    ensures len { result ≡ position_or_len (λ b. b == 10) text.now }
    ensures within { result ≤ length text.now }
{
    text.iter().position(|b| *b == b'\n').unwrap_or(text.len())
}
