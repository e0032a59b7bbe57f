//! The writer of traces.

ghost use Rattle.std.specs.Prelude.{◌≡◌, ◌++◌, ◌∷◌, [], IfOk, OnOk};
ghost use Rattle.trace_text.specs.TraceText.{stage_lines, step_line, trace_text};
ghost use Rattle.text_lines.specs.LinesText.{lines_text};

use crate::stage_list::Stage;
use crate::step_list::Step;
use pair_colours::{Colouring, NoMemory};
use std::alloc::{AllocError, Global};
use text_lines::{Text, put_rows};

/// The text of the trace of a version with these stages that claims this closure. It is read back as
/// that claim where the version is 1 or 2 and has the steps, there is a stage, all have the points of
/// the closure, and all numbers are within the limits.
pub fn write_trace(
    alloc: Global,
    version: u32,
    stages: &[Stage],
    closure: &Colouring,
) -> Result<Vec<u8>, NoMemory>
    ensures { IfOk result
        (λ text. text.items ≡ trace_text (record { version = version; chain = stages.now; closure = closure.now })) }
{
    let mut text = Text::new(alloc);
    text.put_field(b"trace ", version)?;
    text.put_field(b"\npoints ", closure.size())?;
    text.put(b"\n")?;
    for stage in stages {
        put_stage(&mut text, stage)?;
    }
    text.put(b"closure\n")?;
    put_rows(&mut text, closure)?;
    text.put(b"end\n")?;
    Ok(text.into_bytes())
}

// Puts a stage at the end: its rows, and its steps.
fn put_stage(text: &mut Text, stage: &Stage) -> Result<(), NoMemory>
    ensures { OnOk result (text.new ≡ text.old ++ lines_text (stage_lines stage.now)) }
{
    text.put(b"stage\n")?;
    put_rows(text, &stage.colours)?;
    for place in 0..stage.steps.len() {
        put_step(text, stage.steps.at(place))?;
    }
    Ok(())
}

// Puts a step line at the end.
fn put_step(text: &mut Text, step: Step) -> Result<(), AllocError>
    ensures { OnOk result (text.new ≡ text.old ++ lines_text (step_line step ∷ [])) }
{
    match step {
        Step::Diag { class } => text.put_field(b"D ", class)?,
        Step::Flip { class, other } => {
            text.put_field(b"F ", class)?;
            text.put_field(b" ", other)?;
        }
        Step::Tri { class, left, right } => {
            text.put_field(b"T ", class)?;
            text.put_field(b" ", left)?;
            text.put_field(b" ", right)?;
        }
        Step::Round => text.put(b"R")?,
    }
    text.put(b"\n")
}
