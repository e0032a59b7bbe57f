//! Matrices.

ghost use Rattle.std.specs.Prelude.{◌≡◌, ℕ, ◌+◌, ◌^◌, ◌<◌, ◌≤◌, None, All, IfOk, IfErr, OnOk, Some};
ghost use Rattle.text_lines.specs.Views.{part_of};
ghost use Rattle.pair_colours.specs.Colouring.{IsColouring, colour_at};
ghost use Rattle.pair_colours.specs.Tests.{first_that_holds};
ghost use Rattle.relation_text.specs.Lines.{end_of};
ghost use Rattle.relation_text.specs.Faults.{IsFaultOf, head_tests, matrix_tests};
ghost use Rattle.relation_text.specs.LineColours.{cell, size_in};

use crate::choosing::part_after;
use crate::faults::{Fault, RelationFault, RelationWord, text_fault};
use crate::matrix_rows::read_row;
use pair_colours::{Colouring, MOST_POINTS};
use std::alloc::Global;
use text_lines::{TextLines, TextPart, read_number};

// Reads a matrix, whose head line is given and whose rows stand on the lines that are left of a text
// of this length.
pub(crate) fn read_matrix(
    alloc: Global,
    len: usize,
    head: TextPart<'_>,
    mut left: TextLines<'_>,
) -> Result<Colouring, RelationFault>
    requires limit { len < 2 ^ 31 }
    requires head { end_of (part_of head) < 2 ^ 31 }
    requires rows { All (λ row. end_of row < 2 ^ 31) left }
    ensures fault { IfErr result (λ fault. IsFaultOf fault (first_that_holds (matrix_tests len (part_of head.entry) left.entry))) }
    ensures good { OnOk result (first_that_holds (matrix_tests len (part_of head.entry) left.entry) ≡ None) }
    ensures points { IfOk result (λ c. c.size ≡ size_in (part_of head.entry)) }
    ensures colouring { IfOk result (λ c. IsColouring c) }
    ensures cells { IfOk result (λ c. (x y : ℕ) → x < c.size → y < c.size → colour_at c x y ≡ cell left.entry x y) }
{
    let size = match matrix_size(head) {
        Ok(size) => size,
        Err(fault) => return Err(text_fault(fault)),
    };
    let mut colouring = Colouring::new(alloc, size, 0)?;
    for x in 0..size {
        let Some(row) = left.next() else {
            return Err(text_fault((RelationWord::MatrixCount, len)));
        };
        if let Some(fault) = read_row(&mut colouring, x, row) {
            return Err(text_fault(fault));
        }
    }
    Ok(colouring)
}

// The number of points that a head line tells.
fn matrix_size(head: TextPart<'_>) -> Result<u32, Fault>
    requires { end_of (part_of head) < 2 ^ 31 }
    ensures size { IfOk result (λ size. size ≡ size_in (part_of head.entry)) }
    ensures good { OnOk result (first_that_holds (head_tests (part_of head.entry)) ≡ None) }
    ensures some { IfOk result (λ size. 1 ≤ size) }
    ensures few { IfOk result (λ size. size ≤ MOST_POINTS) }
    ensures fault { IfErr result (λ fault. first_that_holds (head_tests (part_of head.entry)) ≡ Some fault) }
    ensures within { IfErr result (λ fault. fault.1 ≤ end_of (part_of head.entry) + 7) }
{
    let word = part_after(head, 7);
    let Some(size) = read_number(word.bytes) else {
        return Err((RelationWord::MatrixHead, head.start));
    };
    if size == 0 {
        return Err((RelationWord::NoPoints, word.start));
    }
    if size > MOST_POINTS {
        return Err((RelationWord::TooManyPoints, word.start));
    }
    Ok(size)
}
