//! The lines of a text that are left to read.

ghost use Rattle.std.specs.Prelude.{◌≡◌, ◌+◌, ◌<◌, ◌^◌, ◌∷◌, [], map, length, IfSome, IfNone};
ghost use Rattle.text_lines.specs.Lines.{lines_of};

use crate::cut_lines::{TextLines, lines};
use std::marker::Model;

/// The lines of a text that are left to read, seen as the list of them with the number of the first.
#[derive(Drop)]
pub struct LineCursor<'a> {
    // The number of the next line, counted from 1.
    line: u32,
    left: TextLines<'a>,
}

impl<'a> Model for LineCursor<'a> {
    ghost use Rattle.std.specs.Prelude.{◌+◌, ◌<◌, ◌^◌, length, map};
    ghost use Rattle.text_lines.specs.LineCursor.{Cursor};

    ghost Value = { Cursor };

    ghost view = { λ cursor. record { line = cursor.line; lines = map (λ part. part.bytes) cursor.left } };

    ghost invariant = { λ cursor. cursor.line + length (map (λ part. part.bytes) cursor.left) < 2 ^ 32 };
}

impl<'a> LineCursor<'a> {
    /// All lines of a text.
    pub fn new(text: &'a [u8]) -> LineCursor<'a>
        requires { length text.now < 2 ^ 31 }
        ensures { result ≡ record { line = 1; lines = map (λ part. part.bytes) (lines_of text.now) } }
    {
        LineCursor {
            line: 1,
            left: lines(text),
        }
    }

    /// The number of the next line, counted from 1.
    pub fn line(&self) -> u32
        ensures line { result ≡ self.now.line }
        ensures within { result + length self.now.lines < 2 ^ 32 }
    {
        self.line
    }

    /// Takes the next line, if there is one.
    pub fn take(&mut self) -> Option<&'a [u8]>
        ensures taken { IfSome result (λ line. self.old.lines ≡ line.now ∷ self.new.lines) }
        ensures number { IfSome result (λ _. self.new.line ≡ self.old.line + 1) }
        ensures none { IfNone result (self.old.lines ≡ []) }
        ensures stays { IfNone result (self.new ≡ self.old) }
    {
        let part = self.left.next()?;
        self.line += 1;
        Some(part.bytes)
    }
}
