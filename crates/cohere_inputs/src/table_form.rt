//! The form `table D NUMBER...`: its words. No file is read for it.

ghost use Rattle.std.specs.Prelude.{◌≡◌, Some, None, MatchOption, IfSome};
ghost use Rattle.cohere_inputs.specs.Asked.{asked_table};
ghost use Rattle.cohere_inputs.specs.TableForm.{fit_diameter, table_in};
ghost use Rattle.cohere_inputs.specs.Task.{IsAsked, Table};
ghost use Rattle.cohere_inputs.specs.Words.{texts};

use crate::number_words::{NumberWords, number_words};
use array_tables::{MOST_DIAMETER, MOST_NUMBER};
use text_lines::read_number;

/// An intersection array {b_0, .., b_(d-1); c_1, .., c_d}.
#[derive(Drop)]
pub struct TableWords<'a> {
    /// The numbers b_0 to b_(d-1).
    pub b: NumberWords<'a>,
    /// The numbers c_1 to c_d.
    pub c: NumberWords<'a>,
}

// Whether the numbers are those of an array of this diameter, within the limits.
fn fit(diameter: u32, numbers: &NumberWords<'_>) -> bool
    ensures { result ≡ fit_diameter diameter numbers.now }
{
    diameter >= 1
        && diameter <= MOST_DIAMETER
        && numbers.len() == diameter as usize + diameter as usize
        && numbers.are_within(MOST_NUMBER)
}

// The array that the words after `table` ask for.
pub(crate) fn table_words(words: &[String]) -> Option<TableWords<'_>>
    ensures words { MatchOption result (table_in (texts words.now) ≡ None) (λ table. table_in (texts words.now) ≡ Some (asked_table table)) }
    ensures within { IfSome result (λ table. IsAsked (Table (asked_table table))) }
{
    let (diameter, words) = words.split_first()?;
    let diameter = read_number(diameter.as_bytes())?;
    let numbers = number_words(words)?;
    if !fit(diameter, &numbers) {
        return None;
    }
    let (b, c) = numbers.split(diameter as usize);
    Some(TableWords { b, c })
}
