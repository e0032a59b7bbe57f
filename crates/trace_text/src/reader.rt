//! The reader of traces.

ghost use Rattle.std.specs.Prelude.{◌≡◌, ℕ, ◌≤◌, ◌+◌, ◌++◌, ◌∷◌, [], IfOk, IfErr, None, OnOk, codes, decimal, length, map, option_map};
ghost use Rattle.std.specs.List.{AllByRecursion, flat_map};
ghost use Rattle.pair_colours.specs.Colouring.{IsRawColouring};
ghost use Rattle.pair_colours.specs.declared.coloured_pairs.TheConstants.{MOST_POINTS};
ghost use Rattle.trace_text.specs.declared.trace_faults.TraceWord.TheVariants as words;
ghost use Rattle.trace_text.specs.TraceFault.{at_body, at_end, at_head, fault_from, next_closure_row, next_row, trace_fault};
ghost use Rattle.trace_text.specs.TraceText.{stage_lines, step_line};
ghost use Rattle.trace_text.specs.ClaimTexts.{IsTraceStage, IsTraceStep, IsTraceText};
ghost use Rattle.trace_text.specs.Versions.{IsVersion};
ghost use Rattle.trace_text.specs.Reading.{IsFaultOf, rows_fault, after_line, after_place};
ghost use Rattle.text_lines.specs.Rows.{matrix_lines};

use crate::limits::MOST_TRACE;
use crate::line_numbers::{read_row, read_step};
use crate::stage_list::{Chain, Claim, Stage};
use crate::step_list::Steps;
use crate::trace_cursor::TraceCursor;
use crate::trace_faults::{TraceFault, TraceWord};
use pair_colours::Colouring;
use std::alloc::Global;

/// Reads a trace: the claim whose text this is.
///
/// The fault is at the first line that may not stand in its place, or on the line after the last if
/// the text ends too early, with the word for what was expected.
pub fn read_trace(alloc: Global, bytes: &[u8]) -> Result<Claim, TraceFault>
    requires { length bytes.now ≤ MOST_TRACE }
    ensures claim { IfOk result (λ claim. IsTraceText bytes.now claim) }
    ensures clean { OnOk result (trace_fault bytes.now ≡ None) }
    ensures fault { IfErr result (λ fault. IsFaultOf fault (trace_fault bytes.now)) }
{
    let mut cursor = TraceCursor::new(bytes);
    let (version, size) = read_head(&mut cursor)?;
    let chain = read_chain(alloc, &mut cursor, version, size)?;
    let closure = read_matrix(alloc, &mut cursor, size)?;
    read_end(&mut cursor)?;
    Ok(Claim {
        version,
        chain,
        closure,
    })
}

// Reads the lines before the rows of the first stage, and gives the version and the number of points.
fn read_head(cursor: &mut TraceCursor<'_>) -> Result<(u32, u32), TraceFault>
    ensures lines { IfOk result (λ head. cursor.old.lines
        ≡ (codes "trace " ++ decimal head.0) ∷ (codes "points " ++ decimal head.1) ∷ codes "stage" ∷ cursor.new.lines) }
    ensures version { IfOk result (λ head. IsVersion head.0) }
    ensures some { IfOk result (λ head. 1 ≤ head.1) }
    ensures few { IfOk result (λ head. head.1 ≤ MOST_POINTS) }
    ensures clean { IfOk result (λ head. fault_from cursor.old.line at_head cursor.old.lines
        ≡ fault_from cursor.new.line (next_row head.0 head.1 head.1) cursor.new.lines) }
    ensures fault { IfErr result (λ fault. IsFaultOf fault (fault_from cursor.old.line at_head cursor.old.lines)) }
{
    let version = cursor.version()?;
    let size = cursor.points()?;
    cursor.fixed(b"stage", TraceWord::Stage)?;
    Ok((version, size))
}

// Reads the stages after the line of the first, and the line of the closure.
fn read_chain(
    alloc: Global,
    cursor: &mut TraceCursor<'_>,
    version: u32,
    size: u32,
) -> Result<Chain, TraceFault>
    requires some { 1 ≤ size }
    requires few { size ≤ MOST_POINTS }
    ensures lines { IfOk result (λ chain. codes "stage" ∷ cursor.old.lines
        ≡ flat_map stage_lines chain ++ (codes "closure" ∷ cursor.new.lines)) }
    ensures stages { IfOk result (λ chain. AllByRecursion (IsTraceStage version size) chain) }
    ensures some { IfOk result (λ chain. 1 ≤ length chain) }
    ensures clean { OnOk result (fault_from cursor.old.line (next_row version size size) cursor.old.lines
        ≡ fault_from cursor.new.line (next_closure_row size size) cursor.new.lines) }
    ensures fault { IfErr result
        (λ fault. IsFaultOf fault (fault_from cursor.old.line (next_row version size size) cursor.old.lines)) }
{
    let mut chain = Chain::new(alloc);
    loop {
        let colours = read_matrix(alloc, cursor, size)?;
        let (steps, after) = read_steps(alloc, cursor, version)?;
        chain.push(Stage { colours, steps })?;
        match after {
            After::Stage => {}
            After::Closure => return Ok(chain),
        }
    }
}

// Reads the rows of a matrix.
fn read_matrix(
    alloc: Global,
    cursor: &mut TraceCursor<'_>,
    size: u32,
) -> Result<Colouring, TraceFault>
    requires some { 1 ≤ size }
    requires few { size ≤ MOST_POINTS }
    ensures rows { IfOk result (λ c. cursor.old.lines ≡ matrix_lines c ++ cursor.new.lines) }
    ensures points { IfOk result (λ c. c.size ≡ size) }
    ensures raw { IfOk result (λ c. IsRawColouring c) }
    ensures number { OnOk result (cursor.new.line ≡ cursor.old.line + size) }
    ensures clean { OnOk result (rows_fault size size cursor.old.line cursor.old.lines ≡ None) }
    ensures fault { IfErr result (λ fault. IsFaultOf fault
        (option_map (λ line. (line, words.Row)) (rows_fault size size cursor.old.line cursor.old.lines))) }
{
    let mut colours = Colouring::new(alloc, size, 0)?;
    for x in 0..size {
        let line = cursor.line();
        let row = cursor.take(TraceWord::Row)?;
        if !read_row(&mut colours, x, row) {
            return Err(TraceFault::Text {
                line,
                what: TraceWord::Row,
            });
        }
    }
    Ok(colours)
}

// What ends the steps of a stage.
#[derive(Clone, Copy)]
enum After {
    Stage,
    Closure,
}

// Reads the steps of a stage, and the line that ends them.
fn read_steps(
    alloc: Global,
    cursor: &mut TraceCursor<'_>,
    version: u32,
) -> Result<(Steps, After), TraceFault>
    ensures lines { IfOk result
        (λ found. cursor.old.lines ≡ map step_line found.0 ++ (after_line found.1 ∷ cursor.new.lines)) }
    ensures small { IfOk result (λ found. AllByRecursion (IsTraceStep version) found.0) }
    ensures clean { IfOk result (λ found. (n : ℕ)
        → fault_from cursor.old.line (at_body version n) cursor.old.lines ≡ fault_from cursor.new.line (after_place version n found.1) cursor.new.lines) }
    ensures fault { IfErr result
        (λ fault. (n : ℕ) → IsFaultOf fault (fault_from cursor.old.line (at_body version n) cursor.old.lines)) }
{
    let mut steps = Steps::new(alloc);
    loop {
        let line = cursor.line();
        let bytes = cursor.take(TraceWord::Body)?;
        if bytes == b"stage".as_slice() {
            return Ok((steps, After::Stage));
        }
        if bytes == b"closure".as_slice() {
            return Ok((steps, After::Closure));
        }
        let Some(step) = read_step(version, bytes) else {
            return Err(TraceFault::Text {
                line,
                what: TraceWord::Body,
            });
        };
        steps.push(step)?;
    }
}

// Reads the last line.
fn read_end(cursor: &mut TraceCursor<'_>) -> Result<(), TraceFault>
    ensures lines { OnOk result (cursor.old.lines ≡ codes "end" ∷ []) }
    ensures clean { OnOk result (fault_from cursor.old.line at_end cursor.old.lines ≡ None) }
    ensures fault { IfErr result (λ fault. IsFaultOf fault (fault_from cursor.old.line at_end cursor.old.lines)) }
{
    cursor.fixed(b"end", TraceWord::End)?;
    cursor.end()
}
