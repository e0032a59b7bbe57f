//! The rows of a matrix.

ghost use Rattle.std.specs.Prelude.{◌≡◌, ◌≢◌, ℕ, ◌<◌, ◌≤◌, true, false, not, All, Some, IfNone, IfSome, MatchOption, length};
ghost use Rattle.std.specs.List.{list_any, position_or_len};
ghost use Rattle.std.specs.Char.{is_ascii_digit};
ghost use Rattle.std.specs.Str.Parse.{digits_value};
ghost use Rattle.text_lines.specs.Number as form;
ghost use Rattle.text_lines.specs.Views.{part_of};
ghost use Rattle.pair_colours.specs.Colouring.{IsColouring, colour_at};
ghost use Rattle.pair_colours.specs.Tests.{first_that_holds};
ghost use Rattle.relation_text.specs.Lines.{end_of};
ghost use Rattle.relation_text.specs.Faults.{is_row_byte, row_tests};
ghost use Rattle.relation_text.specs.LineColours.{cell_of};

use crate::faults::{Fault, RelationWord};
use pair_colours::{Colouring, MOST_COLOUR};
use text_lines::{TextPart, is_blank, words};

// Reads row x. Where it has a fault, some of its colours may have been read.
pub(crate) fn read_row(colouring: &mut Colouring, x: u32, row: TextPart<'_>) -> Option<Fault>
    requires row { x < colouring.old.size }
    requires colouring { IsColouring colouring.old }
    ensures fault { result ≡ first_that_holds (row_tests 0 colouring.old.size (Some (part_of row.entry))) }
    ensures within { IfSome result (λ fault. fault.1 ≤ end_of (part_of row.entry)) }
    ensures colouring { IsColouring colouring.new }
    ensures points { colouring.new.size ≡ colouring.old.size }
    ensures row { IfNone result ((y : ℕ) → y < colouring.old.size → colour_at colouring.new x y ≡ cell_of (part_of row.entry) y) }
    ensures others { (u v : ℕ) → u < colouring.old.size → v < colouring.old.size → u ≢ x → colour_at colouring.new u v ≡ colour_at colouring.old u v }
{
    if let Some(place) = other_byte(row.bytes) {
        return Some((RelationWord::BadByte, row.start + place));
    }
    let mut left = words(row);
    for y in 0..colouring.size() {
        let Some(word) = left.next() else {
            return Some((RelationWord::MatrixCount, row.start + row.bytes.len()));
        };
        if has_leading_zero(word.bytes) {
            return Some((RelationWord::MatrixNumber, word.start));
        }
        let Some(colour) = colour_in(word.bytes) else {
            return Some((RelationWord::ColourTooLarge, word.start));
        };
        colouring.set(x, y, colour);
    }
    let word = left.next()?;
    Some((RelationWord::MatrixCount, word.start))
}

// The place of the first byte that is neither a digit nor a blank.
fn other_byte(row: &[u8]) -> Option<usize>
    ensures none { IfNone result (list_any (λ b. not (is_row_byte b)) row.now ≡ false) }
    ensures some { IfSome result (λ _. list_any (λ b. not (is_row_byte b)) row.now ≡ true) }
    ensures first { IfSome result (λ place. place ≡ position_or_len (λ b. not (is_row_byte b)) row.now) }
    ensures within { IfSome result (λ place. place < length row.now) }
{
    row.iter()
        .position(|b| !(b.is_ascii_digit() || is_blank(*b)))
}

// Whether digits have a leading zero and are more than one.
fn has_leading_zero(digits: &[u8]) -> bool
    ensures { result ≡ form.has_leading_zero digits.now }
{
    digits.len() > 1 && digits[0] == b'0'
}

// The colour that digits write, if it is within the limit.
fn colour_in(digits: &[u8]) -> Option<u32>
    requires { All (λ b. is_ascii_digit b ≡ true) digits.now }
    ensures { MatchOption result (MOST_COLOUR < digits_value 10 digits.now) (λ colour. (colour ≡ digits_value 10 digits.now) × (colour ≤ MOST_COLOUR)) }
{
    let mut colour = 0;
    for digit in digits {
        colour = colour * 10 + u32::from(*digit - b'0');
        if colour > MOST_COLOUR {
            return None;
        }
    }
    Some(colour)
}
