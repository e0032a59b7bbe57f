//! The numbers on a line of a claim.

ghost use Rattle.std.specs.Prelude.{◌≡◌, ◌<◌, ◌^◌, false, true, IfOk, MatchOption, length};
ghost use Rattle.text_lines.specs.LineNumbers.{is_row_to, numbers_on};
ghost use Rattle.equitable.specs.CellText.{step_line};
ghost use Rattle.equitable.specs.ClaimText.{IsTextStep};
ghost use Rattle.equitable.specs.TextFault.{is_step_line};

use crate::cell_steps::CellStep;
use crate::limits::MOST_CELL;
use pair_colours::{NoMemory, Numbers};
use std::alloc::Global;
use text_lines::{cut_word, fill_numbers};

// The numbers of a row, if the line is one of so many numbers up to a limit.
pub(crate) fn read_row(
    alloc: Global,
    line: &[u8],
    limit: u32,
    count: u32,
) -> Result<Option<Vec<u32>>, NoMemory>
    ensures { IfOk result (λ read. MatchOption read (is_row_to limit count line.now ≡ false)
        (λ numbers. (is_row_to limit count line.now ≡ true) × (numbers.items ≡ numbers_on line.now))) }
{
    let mut numbers = vec![in alloc; 0; count as usize]?;
    let good = fill_numbers(Some(line), limit, count, &mut numbers);
    if !good {
        return Ok(None);
    }
    Ok(Some(numbers))
}

// The numbers as a list.
pub(crate) fn listed(alloc: Global, numbers: &[u32]) -> Result<Numbers, NoMemory>
    requires { length numbers.now < 2 ^ 32 }
    ensures { IfOk result (λ list. list ≡ numbers.now) }
{
    let mut list = Numbers::new(alloc);
    for number in numbers {
        list.push(*number)?;
    }
    Ok(list)
}

// The step that a line is, if it is one.
pub(crate) fn read_step(line: &[u8]) -> Option<CellStep>
    ensures { MatchOption result (is_step_line line.now ≡ false) (λ s. (line.now ≡ step_line s) × IsTextStep s) }
{
    let (letter, rest) = cut_word(line);
    if letter != b"S".as_slice() {
        return None;
    }
    let mut numbers = [0; 2];
    let good = fill_numbers(rest, MOST_CELL, 2, &mut numbers);
    if !good {
        return None;
    }
    Some(CellStep {
        cell: numbers[0],
        into: numbers[1],
    })
}
