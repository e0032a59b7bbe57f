//! The answer of a check of a trace.

ghost use Rattle.std.specs.Prelude.{◌≡◌, IfOk};
ghost use Rattle.report_text.specs.Verdicts.{accepted_text_of, bad_line_text_of, verdict_text_of};

use pair_colours::NoMemory;
use std::alloc::Global;
use text_lines::Text;
use trace_check::{CheckWord, Verdict};

// An accepted claim.
fn accepted_text(alloc: Global, points: u32, rank: u32, steps: u32) -> Result<Vec<u8>, NoMemory>
    ensures { IfOk result (λ text. text.items ≡ accepted_text_of points rank steps) }
{
    let mut text = Text::new(alloc);
    text.put_field(b"accepted points ", points)?;
    text.put_field(b" rank ", rank)?;
    text.put_field(b" steps ", steps)?;
    text.put(b"\n")?;
    Ok(text.into_bytes())
}

// A claim that is refused.
fn bad_line_text(alloc: Global, line: u32, what: CheckWord) -> Result<Vec<u8>, NoMemory>
    ensures { IfOk result (λ text. text.items ≡ bad_line_text_of line what) }
{
    let mut text = Text::new(alloc);
    text.put_field(b"refused line ", line)?;
    text.put(b" ")?;
    text.put(what.as_str().as_bytes())?;
    text.put(b"\n")?;
    Ok(text.into_bytes())
}

/// The answer of a verdict: one line, `accepted points N rank R steps S` or `refused line L WORD`.
pub fn verdict_text(alloc: Global, verdict: &Verdict) -> Result<Vec<u8>, NoMemory>
    ensures { IfOk result (λ text. text.items ≡ verdict_text_of verdict.now) }
{
    match *verdict {
        Verdict::Accepted {
            points,
            rank,
            steps,
        } => accepted_text(alloc, points, rank, steps),
        Verdict::Refused { line, what } => bad_line_text(alloc, line, what),
    }
}
