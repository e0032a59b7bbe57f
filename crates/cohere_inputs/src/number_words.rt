//! Words that are all numbers.

ghost use Rattle.std.specs.Prelude.{◌≡◌, ◌≤◌, Some, None, MatchOption, IfOk, length, map, take, drop, nat_le, ◌&&◌};
ghost use Rattle.std.specs.List.{list_all};
ghost use Rattle.cohere_inputs.specs.NumberWords.{is_number, number_in, numbers_in, some_numbers_in};
ghost use Rattle.cohere_inputs.specs.Words.{texts};

use pair_colours::NoMemory;
use std::alloc::Global;
use std::marker::Model;
use text_lines::read_number;

/// Words that are all numbers, seen as the list of the numbers.
#[derive(Drop)]
pub struct NumberWords<'a> {
    words: &'a [String],
}

impl<'a> Model for NumberWords<'a> {
    ghost use Rattle.std.specs.Prelude.{◌≡◌, ℕ, List, map, true};
    ghost use Rattle.std.specs.List.{list_all};
    ghost use Rattle.cohere_inputs.specs.NumberWords.{is_number, number_in};
    ghost use Rattle.cohere_inputs.specs.Words.{texts};

    ghost Value = { List ℕ };

    ghost view = { λ n. map number_in (texts n.words.now) };

    ghost invariant = { λ n. list_all is_number (texts n.words.now) ≡ true };
}

// Whether each word is a number.
fn are_numbers(words: &[String]) -> bool
    ensures { result ≡ list_all is_number (texts words.now) }
{
    for word in words {
        if read_number(word.as_bytes()).is_none() {
            return false;
        }
    }
    true
}

// The number that a word is.
fn number_at(word: &str) -> u32
    ensures { result ≡ number_in word.now }
{
    read_number(word.as_bytes()).unwrap_or(0)
}

// Whether the words are all numbers from 1 to the limit.
fn are_within(words: &[String], limit: u32) -> bool
    ensures { result ≡ list_all (λ word. nat_le 1 (number_in word) && nat_le (number_in word) limit) (texts words.now) }
{
    for word in words {
        let number = number_at(word.as_str());
        if number < 1 || number > limit {
            return false;
        }
    }
    true
}

// The numbers that the words are.
fn numbers_of(alloc: Global, words: &[String]) -> Result<Vec<u32>, NoMemory>
    ensures { IfOk result (λ list. list.items ≡ map number_in (texts words.now)) }
{
    let mut list = Vec::with_capacity(alloc, words.len())?;
    for word in words {
        list.push(number_at(word.as_str()))?;
    }
    Ok(list)
}

/// The numbers that the words are, where each is one.
pub(crate) fn number_words(words: &[String]) -> Option<NumberWords<'_>>
    ensures { MatchOption result (numbers_in (texts words.now) ≡ None) (λ numbers. numbers_in (texts words.now) ≡ Some numbers) }
{
    if are_numbers(words) {
        Some(NumberWords { words })
    } else {
        None
    }
}

/// The same, where there is a word.
pub(crate) fn some_number_words(words: &[String]) -> Option<NumberWords<'_>>
    ensures { MatchOption result (some_numbers_in (texts words.now) ≡ None) (λ numbers. some_numbers_in (texts words.now) ≡ Some numbers) }
{
    if words.is_empty() {
        None
    } else {
        number_words(words)
    }
}

impl<'a> NumberWords<'a> {
    /// The numbers.
    pub fn list(&self, alloc: Global) -> Result<Vec<u32>, NoMemory>
        ensures { IfOk result (λ list. list.items ≡ self.now) }
    {
        numbers_of(alloc, self.words)
    }

    // How many numbers there are.
    pub(crate) fn len(&self) -> usize
        ensures { result ≡ length self.now }
    {
        self.words.len()
    }

    // Whether all numbers are from 1 to the limit.
    pub(crate) fn are_within(&self, limit: u32) -> bool
        ensures { result ≡ list_all (λ n. nat_le 1 n && nat_le n limit) self.now }
    {
        are_within(self.words, limit)
    }

    // The first numbers, so many, and the others.
    pub(crate) fn split(self, count: usize) -> (NumberWords<'a>, NumberWords<'a>)
        requires { count ≤ length self }
        ensures first { result.0 ≡ take count self.entry }
        ensures others { result.1 ≡ drop count self.entry }
    {
        let (first, others) = self.words.split_at(count);
        (NumberWords { words: first }, NumberWords { words: others })
    }
}
