//! The numbers on a line, between single spaces.

ghost use Rattle.std.specs.Prelude.{◌≡◌, ℕ, ◌≤◌, ◌==◌, ◌∷◌, Some, true, false, MatchOption, length, map, take};
ghost use Rattle.std.specs.List.{position_or_len};
ghost use Rattle.text_lines.specs.Number.{number_of};
ghost use Rattle.text_lines.specs.LineNumbers.{are_numbers, between_spaces, is_number_to, value, words_left};
ghost use Rattle.text_lines.specs.PointsLine.{points_on};

use crate::digits::read_number;
use pair_colours::MOST_POINTS;

/// The number that a word is, if it is no greater than the limit.
pub fn number_to(word: &[u8], limit: u32) -> Option<u32>
    ensures { MatchOption result (is_number_to limit word.now ≡ false)
        (λ n. (is_number_to limit word.now ≡ true) × (number_of word.now ≡ Some n)) }
{
    match read_number(word) {
        Some(number) if number <= limit => Some(number),
        _ => None,
    }
}

/// The bytes before the first space, and those after it, if there is one.
pub fn cut_word(line: &[u8]) -> (&[u8], Option<&[u8]>)
    ensures { between_spaces line.now ≡ result.0.now ∷ words_left result.1 }
{
    let end = word_len(line);
    let (word, rest) = line.split_at(end);
    match rest {
        [_, after @ ..] => (word, Some(after)),
        [] => (word, None),
    }
}

// How many bytes come before the first space.
fn word_len(line: &[u8]) -> usize
    ensures len { result ≡ position_or_len (λ b. b == 32) line.now }
    ensures within { result ≤ length line.now }
{
    line.iter().position(|b| *b == b' ').unwrap_or(line.len())
}

/// Whether what is left of a line are so many numbers, none above the limit. They are then the first
/// of the list; else some of them may stand there.
pub fn fill_numbers(rest: Option<&[u8]>, limit: u32, count: u32, numbers: &mut [u32]) -> bool
    requires { count ≤ length numbers.old }
    ensures test { result ≡ are_numbers limit count (words_left rest.entry) }
    ensures numbers { result ≡ true → take count numbers.new ≡ map value (words_left rest.entry) }
{
    let mut left = rest;
    for place in 0..count {
        let Some(bytes) = left else {
            return false;
        };
        let (word, after) = cut_word(bytes);
        let Some(number) = number_to(word, limit) else {
            return false;
        };
        numbers[place as usize] = number;
        left = after;
    }
    left.is_none()
}

/// The number of points that a line tells, if it does: `points` and the number.
pub fn read_points(line: &[u8]) -> Option<u32>
    ensures { result ≡ points_on line.now }
{
    let word = line.strip_prefix(b"points ".as_slice())?;
    let points = read_number(word)?;
    if points == 0 || points > MOST_POINTS {
        return None;
    }
    Some(points)
}
