//! The writer of claims.

ghost use Rattle.std.specs.Prelude.{◌≡◌, ◌++◌, ◌∷◌, [], IfOk, OnOk};
ghost use Rattle.text_lines.specs.LinesText.{lines_text};
ghost use Rattle.equitable.specs.CellText.{cell_text, step_line};

use crate::cell_claims::CellClaim;
use crate::cell_steps::CellStep;
use pair_colours::NoMemory;
use std::alloc::{AllocError, Global};
use text_lines::{Text, put_rows};

/// The text of a claim. It is read back as the claim where the arcs have the numbers 0 and 1 only,
/// there is a cell for each point, and no number of a step or of a cell is above 255.
pub fn write_cells(alloc: Global, claim: &CellClaim) -> Result<Vec<u8>, NoMemory>
    ensures { IfOk result (λ text. text.items ≡ cell_text claim.now) }
{
    let mut text = Text::new(alloc);
    text.put(b"cells 1\n")?;
    text.put_field(b"points ", claim.arcs.size())?;
    text.put(b"\n")?;
    put_rows(&mut text, &claim.arcs)?;
    for place in 0..claim.steps.len() {
        put_step(&mut text, claim.steps.at(place))?;
    }
    text.put(b"cells\n")?;
    text.put_line(b"", claim.cells.as_slice())?;
    text.put(b"end\n")?;
    Ok(text.into_bytes())
}

// Puts a step line at the end.
fn put_step(text: &mut Text, step: CellStep) -> Result<(), AllocError>
    ensures { OnOk result (text.new ≡ text.old ++ lines_text (step_line step ∷ [])) }
{
    text.put_field(b"S ", step.cell)?;
    text.put_field(b" ", step.into)?;
    text.put(b"\n")
}
