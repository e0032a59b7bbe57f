//! Blanks and words.

ghost use Rattle.std.specs.Prelude.{◌≡◌, ◌≤◌, not, length};
ghost use Rattle.std.specs.List.{position_or_len};
ghost use Rattle.text_lines.specs.Words.{is_blank_byte, words_of};
ghost use Rattle.text_lines.specs.Views.{part_of};

use crate::text_part::TextPart;
use std::marker::Model;

/// Whether the byte is a space or a tab.
pub fn is_blank(byte: u8) -> bool
    ensures { result ≡ is_blank_byte byte }
{
    byte == b' ' || byte == b'\t'
}

/// The words of a line that are left to read, seen as the list of them: what stands between blanks.
#[derive(Drop)]
pub struct TextWords<'a> {
    place: usize,
    rest: &'a [u8],
}

impl<'a> Model for TextWords<'a> {
    ghost use Rattle.std.specs.Prelude.{List, ◌+◌, ◌^◌, ◌<◌, length};
    ghost use Rattle.text_lines.specs.Part.{Part};
    ghost use Rattle.text_lines.specs.Words.{words_from};

    ghost Value = { List Part };

    ghost view = { λ words. words_from words.place words.rest.now };

    ghost invariant = { λ words. words.place + length words.rest.now < 2 ^ 64 };
}

impl<'a> Iterator for TextWords<'a> {
    ghost use Rattle.std.specs.Iterator.{YieldsFirstBy, item_count};
    ghost use Rattle.text_lines.specs.Views.{part_of};

    type Item = TextPart<'a>;

    ghost next_gives = { YieldsFirstBy part_of (λ words. words) };

    ghost remaining = { item_count (λ words. words) };

    fn next(&mut self) -> Option<TextPart<'a>> {
        let (blanks, rest) = self.rest.split_at(blanks_len(self.rest));
        let (bytes, rest) = rest.split_at(word_len(rest));
        let start = self.place + blanks.len();
        self.rest = rest;
        self.place = start + bytes.len();
        if bytes.is_empty() {
            return None;
        }
        Some(TextPart { start, bytes })
    }
}

/// The words of a line.
pub fn words(line: TextPart<'_>) -> TextWords<'_>
    ensures { result ≡ words_of (part_of line.entry) }
{
    TextWords {
        place: line.start,
        rest: line.bytes,
    }
}

// How many blanks the text begins with.
fn blanks_len(text: &[u8]) -> usize
    ensures len { result ≡ position_or_len (λ b. not (is_blank_byte b)) text.now }
    ensures within { result ≤ length text.now }
{
    text.iter()
        .position(|b| !is_blank(*b))
        .unwrap_or(text.len())
}

// How many bytes come before the first blank.
fn word_len(text: &[u8]) -> usize
    ensures len { result ≡ position_or_len is_blank_byte text.now }
    ensures within { result ≤ length text.now }
{
    text.iter().position(|b| is_blank(*b)).unwrap_or(text.len())
}
