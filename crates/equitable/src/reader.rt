//! The reader of claims.

ghost use Rattle.std.specs.Prelude.{◌≡◌, ℕ, ◌<◌, ◌≤◌, ◌+◌, ◌*◌, ◌++◌, ◌∷◌, [], IfOk, IfErr, None, OnOk, codes, decimal, length, map, take};
ghost use Rattle.std.specs.List.{AllByRecursion};
ghost use Rattle.text_lines.specs.Joined.{spaced};
ghost use Rattle.text_lines.specs.Rows.{matrix_lines};
ghost use Rattle.pair_colours.specs.declared.coloured_pairs.TheConstants.{MOST_POINTS};
ghost use Rattle.equitable.specs.declared.limits.TheConstants.{MOST_CELL, MOST_CELL_TEXT};
ghost use Rattle.equitable.specs.Arcs.{IsArcs};
ghost use Rattle.equitable.specs.CellText.{step_line};
ghost use Rattle.equitable.specs.ClaimText.{IsCellText, IsTextStep};
ghost use Rattle.equitable.specs.TextFault.{at_body, at_cells, at_end, at_head, cell_text_fault, fault_from, next_row};
ghost use Rattle.equitable.specs.Reading.{IsFaultOf};

use crate::cell_claims::CellClaim;
use crate::cell_steps::CellSteps;
use crate::limits::{MOST_CELL, MOST_CELL_TEXT};
use crate::line_numbers::{listed, read_row, read_step};
use crate::next_lines::{fixed_line, next_line, no_line, points_line};
use crate::text_faults::{CellTextFault, CellWord};
use pair_colours::{Colouring, Numbers};
use std::alloc::Global;
use text_lines::LineCursor;

/// Reads a claim: the one whose text this is.
///
/// The fault is at the first line that may not stand in its place, or on the line after the last if
/// the text ends too early, with the word for what was expected.
pub fn read_cells(alloc: Global, bytes: &[u8]) -> Result<CellClaim, CellTextFault>
    requires { length bytes.now ≤ MOST_CELL_TEXT }
    ensures claim { IfOk result (λ claim. IsCellText bytes.now claim) }
    ensures clean { OnOk result (cell_text_fault bytes.now ≡ None) }
    ensures fault { IfErr result (λ fault. IsFaultOf fault (cell_text_fault bytes.now)) }
{
    let mut cursor = LineCursor::new(bytes);
    let size = read_head(&mut cursor)?;
    let arcs = read_arcs(alloc, &mut cursor, size)?;
    let steps = read_steps(alloc, &mut cursor)?;
    let cells = read_last_cells(alloc, &mut cursor, size)?;
    read_end(&mut cursor)?;
    Ok(CellClaim { arcs, steps, cells })
}

// Reads the lines before the rows of arcs, and gives the number of points.
fn read_head(cursor: &mut LineCursor<'_>) -> Result<u32, CellTextFault>
    ensures lines { IfOk result (λ n. cursor.old.lines ≡ codes "cells 1" ∷ (codes "points " ++ decimal n) ∷ cursor.new.lines) }
    ensures some { IfOk result (λ n. 1 ≤ n) }
    ensures few { IfOk result (λ n. n ≤ MOST_POINTS) }
    ensures clean { IfOk result (λ n. fault_from cursor.old.line at_head cursor.old.lines ≡ fault_from cursor.new.line (next_row n n) cursor.new.lines) }
    ensures fault { IfErr result (λ fault. IsFaultOf fault (fault_from cursor.old.line at_head cursor.old.lines)) }
{
    fixed_line(cursor, b"cells 1", CellWord::Head)?;
    let size = points_line(cursor)?;
    Ok(size)
}

// Reads the rows of arcs.
fn read_arcs(
    alloc: Global,
    cursor: &mut LineCursor<'_>,
    size: u32,
) -> Result<Colouring, CellTextFault>
    requires some { 1 ≤ size }
    requires few { size ≤ MOST_POINTS }
    ensures rows { IfOk result (λ c. cursor.old.lines ≡ matrix_lines c ++ cursor.new.lines) }
    ensures points { IfOk result (λ c. c.size ≡ size) }
    ensures bits { IfOk result (λ c. IsArcs c) }
    ensures clean { OnOk result (fault_from cursor.old.line (next_row size size) cursor.old.lines ≡ fault_from cursor.new.line (at_body size) cursor.new.lines) }
    ensures fault { IfErr result (λ fault. IsFaultOf fault (fault_from cursor.old.line (next_row size size) cursor.old.lines)) }
{
    let mut arcs = Colouring::new(alloc, size, 0)?;
    for x in 0..size {
        let line = cursor.line();
        let bytes = next_line(cursor, CellWord::Row)?;
        let Some(row) = read_row(alloc, bytes, 1, size)? else {
            return Err(CellTextFault::Text {
                line,
                what: CellWord::Row,
            });
        };
        set_row(&mut arcs, x, &row);
    }
    Ok(arcs)
}

// Gives the pairs of row x these colours.
fn set_row(arcs: &mut Colouring, x: u32, row: &[u32])
    requires row { x < arcs.old.size }
    requires len { length row.now ≡ arcs.old.size }
    ensures points { arcs.new.size ≡ arcs.old.size }
    ensures pairs { length arcs.new.colours ≡ length arcs.old.colours }
    ensures row { take (x * arcs.old.size + arcs.old.size) arcs.new.colours ≡ take (x * arcs.old.size) arcs.old.colours ++ row.now }
{
    for y in 0..arcs.size() {
        arcs.set(x, y, row[y as usize]);
    }
}

// Reads the steps, and the line that ends them.
fn read_steps(alloc: Global, cursor: &mut LineCursor<'_>) -> Result<CellSteps, CellTextFault>
    ensures lines { IfOk result (λ steps. cursor.old.lines ≡ map step_line steps ++ (codes "cells" ∷ cursor.new.lines)) }
    ensures small { IfOk result (λ steps. AllByRecursion IsTextStep steps) }
    ensures clean { OnOk result ((n : ℕ) → fault_from cursor.old.line (at_body n) cursor.old.lines ≡ fault_from cursor.new.line (at_cells n) cursor.new.lines) }
    ensures fault { IfErr result (λ fault. (n : ℕ) → IsFaultOf fault (fault_from cursor.old.line (at_body n) cursor.old.lines)) }
{
    let mut steps = CellSteps::new(alloc);
    loop {
        let line = cursor.line();
        let bytes = next_line(cursor, CellWord::Body)?;
        if bytes == b"cells".as_slice() {
            return Ok(steps);
        }
        let Some(step) = read_step(bytes) else {
            return Err(CellTextFault::Text {
                line,
                what: CellWord::Body,
            });
        };
        steps.push(step)?;
    }
}

// Reads the row of the claimed cells.
fn read_last_cells(
    alloc: Global,
    cursor: &mut LineCursor<'_>,
    size: u32,
) -> Result<Numbers, CellTextFault>
    requires { 1 ≤ size }
    ensures line { IfOk result (λ cells. cursor.old.lines ≡ spaced cells ∷ cursor.new.lines) }
    ensures count { IfOk result (λ cells. length cells ≡ size) }
    ensures small { IfOk result (λ cells. AllByRecursion (λ cell. cell ≤ MOST_CELL) cells) }
    ensures clean { OnOk result (fault_from cursor.old.line (at_cells size) cursor.old.lines ≡ fault_from cursor.new.line at_end cursor.new.lines) }
    ensures fault { IfErr result (λ fault. IsFaultOf fault (fault_from cursor.old.line (at_cells size) cursor.old.lines)) }
{
    let line = cursor.line();
    let bytes = next_line(cursor, CellWord::Row)?;
    match read_row(alloc, bytes, MOST_CELL, size)? {
        Some(cells) => Ok(listed(alloc, &cells)?),
        None => Err(CellTextFault::Text {
            line,
            what: CellWord::Row,
        }),
    }
}

// Reads the last line.
fn read_end(cursor: &mut LineCursor<'_>) -> Result<(), CellTextFault>
    ensures lines { OnOk result (cursor.old.lines ≡ codes "end" ∷ []) }
    ensures clean { OnOk result (fault_from cursor.old.line at_end cursor.old.lines ≡ None) }
    ensures fault { IfErr result (λ fault. IsFaultOf fault (fault_from cursor.old.line at_end cursor.old.lines)) }
{
    fixed_line(cursor, b"end", CellWord::End)?;
    no_line(cursor)
}
