//! A line or a word where it stands.

ghost use Rattle.std.specs.Prelude.{◌+◌, ◌^◌, ◌<◌, length};

/// A line or a word of a text.
#[derive(Clone, Copy)]
pub struct TextPart<'a> {
    /// The place of its first byte in the text, counted from 0.
    pub start: usize,
    /// What it holds.
    pub bytes: &'a [u8],
    pub ghost in_range: { start + length bytes.now < 2 ^ 64 },
}
