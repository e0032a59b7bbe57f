//! Texts that are put together.

ghost use Rattle.std.specs.Prelude.{◌≡◌, ◌++◌, ℕ, List, [], codes, decimal, OnOk, IfOk};
ghost use Rattle.text_lines.specs.Joined.{joined, spaced, separator_before};

use itoa::{Buffer, Integer};
use std::alloc::{AllocError, Global};
use std::marker::Model;

/// A text that is being put together, seen as its bytes: each call puts some at the end.
///
/// The one error is want of memory. What a text holds after it is not said, so it is not used again.
#[derive(Drop)]
pub struct Text {
    bytes: Vec<u8>,
    digits: Buffer,
}

impl Model for Text {
    ghost Value = { List ℕ };

    ghost view = { λ text. text.bytes.items };
}

impl Text {
    /// No bytes yet.
    pub fn new(alloc: Global) -> Text
        ensures { result ≡ [] }
    {
        Text {
            bytes: Vec::new(alloc),
            digits: Buffer::new(),
        }
    }

    /// No bytes yet, with memory for `room` bytes.
    pub fn with_room(alloc: Global, room: usize) -> Result<Text, AllocError>
        ensures { IfOk result (λ text. text ≡ []) }
    {
        Ok(Text {
            bytes: Vec::with_capacity(alloc, room)?,
            digits: Buffer::new(),
        })
    }

    /// Puts bytes at the end.
    pub fn put(&mut self, bytes: &[u8]) -> Result<(), AllocError>
        ensures { OnOk result (self.new ≡ self.old ++ bytes.now) }
    {
        self.bytes.extend_from_slice(bytes)
    }

    /// Puts a number at the end, in decimal digits.
    pub fn put_number<I: Integer>(&mut self, number: I) -> Result<(), AllocError>
        ensures { OnOk result (self.new ≡ self.old ++ I.text number) }
    {
        let digits = self.digits.format(number);
        self.bytes.extend_from_slice(digits.as_bytes())
    }

    /// Puts a word and the number after it at the end. The word brings its own blanks.
    pub fn put_field(&mut self, word: &[u8], number: u32) -> Result<(), AllocError>
        ensures { OnOk result (self.new ≡ self.old ++ word.now ++ decimal number) }
    {
        self.put(word)?;
        self.put_number(number)
    }

    /// Puts the number at a place of a list at the end, places counted from 0: after the separator,
    /// but for the first.
    pub fn put_next(&mut self, separator: u8, place: usize, number: u32) -> Result<(), AllocError>
        ensures { OnOk result (self.new ≡ self.old ++ separator_before separator place ++ decimal number) }
    {
        if place > 0 {
            self.bytes.push(separator)?;
        }
        self.put_number(number)
    }

    /// Puts numbers at the end, with the separator between each two.
    pub fn put_numbers(&mut self, separator: u8, numbers: &[u32]) -> Result<(), AllocError>
        ensures { OnOk result (self.new ≡ self.old ++ joined separator numbers.now) }
    {
        for (place, number) in numbers.iter().enumerate() {
            self.put_next(separator, place, *number)?;
        }
        Ok(())
    }

    /// Puts a line at the end: words, and then numbers with single spaces. The words bring their own
    /// blanks.
    pub fn put_line(&mut self, words: &[u8], numbers: &[u32]) -> Result<(), AllocError>
        ensures { OnOk result (self.new ≡ self.old ++ (words.now ++ spaced numbers.now ++ codes "\n")) }
    {
        self.put(words)?;
        self.put_numbers(b' ', numbers)?;
        self.put(b"\n")
    }

    /// The bytes.
    pub fn into_bytes(self) -> Vec<u8>
        ensures { result.items ≡ self }
    {
        self.bytes
    }
}
