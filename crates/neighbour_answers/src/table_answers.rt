//! The answer of `table`.

ghost use Rattle.std.specs.Prelude.{◌≡◌, ◌++◌, IfOk, OnOk};
ghost use Rattle.text_lines.specs.Joined.{spaced};
ghost use Rattle.report_text.specs.EditLines.{refused_text_of};
ghost use Rattle.array_tables.specs.Parameters.{array_of};
ghost use Rattle.array_tables.specs.Kept.{FitsArray};
ghost use Rattle.neighbour_answers.specs.TableAnswer.{fault_words, table_answer_of, table_text_of};

use crate::table_numbers::{entry_count, put_numbers};
use array_tables::{ArrayTable, TableFault, table};
use pair_colours::NoMemory;
use std::alloc::{AllocError, Global};
use text_lines::Text;

/// The answer for an intersection array {b_0, .., b_(d-1); c_1, .., c_d}: `table points N rank R
/// entries E`, and a line `I J K Q` for each of the E numbers Q = q(I, J; K) that are not 0, by K,
/// then I, then J; or `refused` and the first test that the array fails, with its indices.
pub fn table_answer(alloc: Global, b: &[u32], c: &[u32]) -> Result<Vec<u8>, NoMemory>
    requires { FitsArray (array_of b.now c.now) }
    ensures { IfOk result (λ text. text.items ≡ table_answer_of (array_of b.now c.now)) }
{
    match table(alloc, b, c) {
        Ok(table) => table_text(alloc, &table),
        Err(TableFault::NoMemory) => Err(NoMemory),
        Err(fault) => fault_text(alloc, fault),
    }
}

// The text of a table.
fn table_text(alloc: Global, table: &ArrayTable) -> Result<Vec<u8>, NoMemory>
    ensures { IfOk result (λ text. text.items ≡ table_text_of table.now) }
{
    let mut text = Text::new(alloc);
    text.put_field(b"table points ", table.points())?;
    text.put_field(b" rank ", table.diameter() + 1)?;
    text.put_field(b" entries ", entry_count(table))?;
    text.put(b"\n")?;
    put_numbers(&mut text, table)?;
    Ok(text.into_bytes())
}

// The line of a test that fails.
fn fault_text(alloc: Global, fault: TableFault) -> Result<Vec<u8>, NoMemory>
    ensures { IfOk result (λ text. text.items ≡ refused_text_of (fault_words fault)) }
{
    let mut text = Text::new(alloc);
    text.put(b"refused ")?;
    put_fault(&mut text, fault)?;
    text.put(b"\n")?;
    Ok(text.into_bytes())
}

// Puts the word of a test and its indices at the end.
fn put_fault(text: &mut Text, fault: TableFault) -> Result<(), AllocError>
    ensures { OnOk result (text.new ≡ text.old ++ fault_words fault) }
{
    match fault {
        TableFault::FirstC => text.put(b"FirstC"),
        TableFault::Parts { i } => text.put_field(b"Parts ", i),
        TableFault::Valency { i } => text.put_field(b"Valency ", i),
        TableFault::TooManyPoints { i } => text.put_field(b"TooManyPoints ", i),
        TableFault::Negative { i, j, k } => put_indices(text, b"Negative ", &[i, j, k]),
        TableFault::Division { i, j, k } => put_indices(text, b"Division ", &[i, j, k]),
        TableFault::NoMemory => text.put(b"NoMemory"),
    }
}

// Puts a word and numbers with single spaces at the end.
fn put_indices(text: &mut Text, word: &[u8], indices: &[u32]) -> Result<(), AllocError>
    ensures { OnOk result (text.new ≡ text.old ++ (word.now ++ spaced indices.now)) }
{
    text.put(word)?;
    text.put_numbers(b' ', indices)
}
