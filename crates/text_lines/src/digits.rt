//! The form of numbers.

ghost use Rattle.std.specs.Prelude.{◌≡◌, ℕ, IfSome, IfNone, MatchOption};
ghost use Rattle.text_lines.specs.Number.{IsNumberForm, number_of};

use std::str;

/// The number that a word is: decimal digits without a leading zero, or the digit `0` alone, of at
/// most 4,294,967,295.
pub fn read_number(word: &[u8]) -> Option<u32>
    ensures number { result ≡ number_of word.now }
    ensures some { IfSome result (λ n. IsNumberForm word.now n) }
    ensures none { IfNone result ((n : ℕ) → ¬ IsNumberForm word.now n) }
{
    match str::from_utf8(word) {
        Ok(text) => number_in(text),
        Err(_) => None,
    }
}

// The number that a text is: the one that is written so.
fn number_in(text: &str) -> Option<u32>
    ensures { MatchOption result ((n : ℕ) → ¬ IsNumberForm text.now n) (λ n. IsNumberForm text.now n) }
{
    match text.parse::<u32>() {
        Ok(number) => {
            let mut buffer = itoa::Buffer::new();
            if buffer.format(number) == text {
                Some(number)
            } else {
                None
            }
        }
        Err(_) => None,
    }
}
