//! Answers that show a matrix of colours.

ghost use Rattle.std.specs.Prelude.{◌≡◌, ◌++◌, IfOk, OnOk};
ghost use Rattle.report_text.specs.Matrices.{head_line, matrix_text_of};

use pair_colours::{Colouring, NoMemory};
use std::alloc::{AllocError, Global};
use text_lines::{Text, put_rows};

/// Which matrix an answer shows, told by the first word of its head line.
#[derive(Clone, Copy, Debug, PartialEq, Eq)]
pub enum MatrixHead {
    /// The closure.
    Show,
    /// The present colouring, with the raw colours.
    Raw,
    /// The quotient of the closure by a closed subset.
    Quotient,
    /// A subscheme of the closure.
    Sub,
}

/// The answer that shows a matrix: its head line, with the number of points and the number of
/// colours in use, and then a line for each row of colours.
pub fn matrix_text(alloc: Global, head: MatrixHead, matrix: &Colouring) -> Result<Vec<u8>, NoMemory>
    ensures { IfOk result (λ text. text.items ≡ matrix_text_of head matrix.now) }
{
    let rank = matrix.rank(alloc)?;
    let mut text = Text::with_room(alloc, room_for(matrix))?;
    put_head(&mut text, head, matrix.size(), rank)?;
    put_rows(&mut text, matrix)?;
    Ok(text.into_bytes())
}

// Memory enough for the text of a matrix whose colours have at most five digits.
fn room_for(matrix: &Colouring) -> usize {
    let size = matrix.size() as usize;
    64 + 6 * size * size
}

fn put_head(text: &mut Text, head: MatrixHead, points: u32, colours: u32) -> Result<(), AllocError>
    ensures { OnOk result (text.new ≡ text.old ++ head_line head points colours) }
{
    match head {
        MatrixHead::Show => {
            text.put_field(b"show points ", points)?;
            text.put_field(b" rank ", colours)?;
        }
        MatrixHead::Raw => {
            text.put_field(b"raw points ", points)?;
            text.put_field(b" colours ", colours)?;
        }
        MatrixHead::Quotient => {
            text.put_field(b"quotient points ", points)?;
            text.put_field(b" rank ", colours)?;
        }
        MatrixHead::Sub => {
            text.put_field(b"sub points ", points)?;
            text.put_field(b" rank ", colours)?;
        }
    }
    text.put(b"\n")
}
