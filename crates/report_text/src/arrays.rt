//! Answers on distance-regular graphs.

ghost use Rattle.std.specs.Prelude.{◌≡◌, ◌++◌, IfOk, OnOk};
ghost use Rattle.report_text.specs.Arrays.{array_text_of};

use drg_arrays::ArrayAnswer;
use pair_colours::NoMemory;
use std::alloc::{AllocError, Global};
use text_lines::Text;

/// The answer on the graph of a set of colours: its intersection array, the first pair that no walk
/// joins, or the first pair whose numbers differ from those of another at its distance.
pub fn array_text(alloc: Global, answer: &ArrayAnswer) -> Result<Vec<u8>, NoMemory>
    ensures { IfOk result (λ text. text.items ≡ array_text_of answer.now) }
{
    let mut text = Text::new(alloc);
    put_answer(&mut text, answer)?;
    Ok(text.into_bytes())
}

fn put_answer(text: &mut Text, answer: &ArrayAnswer) -> Result<(), AllocError>
    ensures { OnOk result (text.new ≡ text.old ++ array_text_of answer.now) }
{
    match answer {
        ArrayAnswer::Array { b, c } => {
            text.put(b"array {")?;
            text.put_numbers(b',', b.as_slice())?;
            text.put(b";")?;
            text.put_numbers(b',', c.as_slice())?;
            text.put(b"}\n")
        }
        ArrayAnswer::Disconnected { x, y } => text.put_line(b"array disconnected ", &[*x, *y]),
        ArrayAnswer::Irregular { x, y, u, v } => {
            text.put_line(b"array irregular ", &[*x, *y, *u, *v])
        }
    }
}
