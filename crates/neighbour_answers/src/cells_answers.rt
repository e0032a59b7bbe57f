//! The answers of `cells` and of `check-cells`.

ghost use Rattle.std.specs.Prelude.{◌≡◌, IfOk};
ghost use Rattle.neighbour_answers.specs.CellsAnswer.{AnswersCells, cell_verdict_text};

use equitable::{CellFault, CellVerdict, cells, write_cells};
use pair_colours::{Colouring, NoMemory};
use report_text::refused_text;
use std::alloc::Global;
use text_lines::Text;

/// The answer for a relation and a set of its colours: the text of a claim that is accepted, with the
/// pairs of these colours as its arcs, or `refused BadSet` where the set is empty or holds a number
/// that is no colour of a pair.
pub fn cells_answer(alloc: Global, relation: &Colouring, set: &[u32]) -> Result<Vec<u8>, NoMemory>
    ensures { IfOk result (λ text. AnswersCells relation.now set.now text.items) }
{
    match cells(alloc, relation, set) {
        Ok(claim) => write_cells(alloc, &claim),
        Err(CellFault::BadSet) => refused_text(alloc, "BadSet"),
        Err(CellFault::NoMemory) => Err(NoMemory),
    }
}

/// The line of a verdict: `accepted points N cells M steps S`, or `refused line L WORD`.
pub fn cell_verdict(alloc: Global, verdict: &CellVerdict) -> Result<Vec<u8>, NoMemory>
    ensures { IfOk result (λ text. text.items ≡ cell_verdict_text verdict.now) }
{
    let mut text = Text::new(alloc);
    match *verdict {
        CellVerdict::Accepted {
            points,
            cells,
            steps,
        } => {
            text.put_field(b"accepted points ", points)?;
            text.put_field(b" cells ", cells)?;
            text.put_field(b" steps ", steps)?;
        }
        CellVerdict::Refused { line, what } => {
            text.put_field(b"refused line ", line)?;
            text.put(b" ")?;
            text.put(what.as_str().as_bytes())?;
        }
    }
    text.put(b"\n")?;
    Ok(text.into_bytes())
}
