//! The rows of a matrix as lines.

ghost use Rattle.std.specs.Prelude.{◌≡◌, ◌++◌, ◌<◌, OnOk};
ghost use Rattle.text_lines.specs.Rows.{matrix_row, matrix_rows};

use crate::growing_text::Text;
use pair_colours::{Colouring, NoMemory};
use std::alloc::AllocError;

/// Puts the rows of a matrix at the end of a text, a line each: its numbers, each followed by one
/// space or by the line end.
pub fn put_rows(text: &mut Text, matrix: &Colouring) -> Result<(), NoMemory>
    ensures { OnOk result (text.new ≡ text.old ++ matrix_rows matrix.now) }
{
    for x in 0..matrix.size() {
        put_row(text, matrix, x)?;
        text.put(b"\n")?;
    }
    Ok(())
}

// Puts row x of a matrix at the end, without its line end.
fn put_row(text: &mut Text, matrix: &Colouring, x: u32) -> Result<(), AllocError>
    requires { x < matrix.now.size }
    ensures { OnOk result (text.new ≡ text.old ++ matrix_row matrix.now x) }
{
    for y in 0..matrix.size() {
        text.put_next(b' ', y as usize, matrix.get(x, y))?;
    }
    Ok(())
}
