//! The numbers on a line.

ghost use Rattle.std.specs.Prelude.{◌≡◌, ℕ, ◌+◌, ◌*◌, ◌<◌, ◌≤◌, ◌==◌, ◌++◌, ◌∷◌, [], Some, true, false, MatchOption, length, map, take, unwrap_or};
ghost use Rattle.text_lines.specs.Number.{number_of};
ghost use Rattle.pair_colours.specs.Colouring.{IsColouring};
ghost use Rattle.trace_text.specs.TraceFault.{is_row_line, is_step_line};
ghost use Rattle.trace_text.specs.TraceText.{step_line};
ghost use Rattle.trace_text.specs.ClaimTexts.{IsTraceStep};
ghost use Rattle.text_lines.specs.LineNumbers.{are_numbers, between_spaces, is_number_to, numbers_on, words_left};

use crate::limits::MOST_STEP_NUMBER;
use crate::step_list::Step;
use pair_colours::{Colouring, MOST_COLOUR};
use text_lines::{cut_word, fill_numbers, number_to};

// Reads row x, if the line is a row. If it is not, some of its colours may have been read.
pub(crate) fn read_row(colouring: &mut Colouring, x: u32, line: &[u8]) -> bool
    requires row { x < colouring.old.size }
    requires colouring { IsColouring colouring.old }
    ensures test { result ≡ is_row_line colouring.old.size line.now }
    ensures points { colouring.new.size ≡ colouring.old.size }
    ensures colouring { IsColouring colouring.new }
    ensures row { result ≡ true → take (x * colouring.old.size + colouring.old.size) colouring.new.colours
        ≡ take (x * colouring.old.size) colouring.old.colours ++ numbers_on line.now }
{
    let mut rest = Some(line);
    for y in 0..colouring.size() {
        let Some(bytes) = rest else {
            return false;
        };
        let (word, after) = cut_word(bytes);
        let Some(colour) = number_to(word, MOST_COLOUR) else {
            return false;
        };
        colouring.set(x, y, colour);
        rest = after;
    }
    rest.is_none()
}

// The step that a line is, if it is one of this version.
pub(crate) fn read_step(version: u32, line: &[u8]) -> Option<Step>
    ensures { MatchOption result (is_step_line version line.now ≡ false) (λ s. (line.now ≡ step_line s) × IsTraceStep version s) }
{
    let (letter, rest) = cut_word(line);
    if letter == b"D".as_slice() {
        let numbers = step_numbers(rest, 1)?;
        return Some(Step::Diag { class: numbers[0] });
    }
    if letter == b"F".as_slice() {
        let numbers = step_numbers(rest, 2)?;
        return Some(Step::Flip {
            class: numbers[0],
            other: numbers[1],
        });
    }
    if letter == b"T".as_slice() {
        let numbers = step_numbers(rest, 3)?;
        return Some(Step::Tri {
            class: numbers[0],
            left: numbers[1],
            right: numbers[2],
        });
    }
    if version == 2 && letter == b"R".as_slice() {
        step_numbers(rest, 0)?;
        return Some(Step::Round);
    }
    None
}

// So many numbers of a step line, if nothing else is left.
fn step_numbers(rest: Option<&[u8]>, count: u32) -> Option<[u32; 3]>
    requires { count ≤ 3 }
    ensures { MatchOption result (are_numbers MOST_STEP_NUMBER count (words_left rest.entry) ≡ false)
        (λ numbers. (are_numbers MOST_STEP_NUMBER count (words_left rest.entry) ≡ true)
        × (take count numbers ≡ map (λ word. unwrap_or (number_of word) 0) (words_left rest.entry))) }
{
    let mut numbers = [0; 3];
    if fill_numbers(rest, MOST_STEP_NUMBER, count, &mut numbers) {
        Some(numbers)
    } else {
        None
    }
}
