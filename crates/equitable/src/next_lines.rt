//! The next line of a text, and what is wrong where it is another than expected.

ghost use Rattle.std.specs.Prelude.{◌≡◌, ◌+◌, ◌<◌, ◌≤◌, ◌∷◌, ◌++◌, [], false, length, IfOk, IfErr, OnOk, bytes_eq, codes, decimal, is_some};
ghost use Rattle.pair_colours.specs.declared.coloured_pairs.TheConstants.{MOST_POINTS};
ghost use Rattle.text_lines.specs.LineCursor.{first_passes};
ghost use Rattle.text_lines.specs.PointsLine.{points_on};
ghost use Rattle.equitable.specs.declared.text_faults.CellTextFault.TheVariants as faults;
ghost use Rattle.equitable.specs.declared.text_faults.CellWord.TheVariants as words;

use crate::text_faults::{CellTextFault, CellWord};
use text_lines::{LineCursor, read_points};

// Takes the next line. If there is none, this was expected.
pub(crate) fn next_line<'a>(
    cursor: &mut LineCursor<'a>,
    what: CellWord,
) -> Result<&'a [u8], CellTextFault>
    ensures taken { IfOk result (λ line. cursor.old.lines ≡ line.now ∷ cursor.new.lines) }
    ensures number { OnOk result (cursor.new.line ≡ cursor.old.line + 1) }
    ensures none { IfErr result (λ _. cursor.old.lines ≡ []) }
    ensures fault { IfErr result (λ fault. fault ≡ faults.Text cursor.old.line what) }
{
    let line = cursor.line();
    match cursor.take() {
        Some(bytes) => Ok(bytes),
        None => Err(CellTextFault::Text { line, what }),
    }
}

// Takes the next line, which is to be this.
pub(crate) fn fixed_line(
    cursor: &mut LineCursor<'_>,
    text: &[u8],
    what: CellWord,
) -> Result<(), CellTextFault>
    ensures taken { OnOk result (cursor.old.lines ≡ text.now ∷ cursor.new.lines) }
    ensures number { OnOk result (cursor.new.line ≡ cursor.old.line + 1) }
    ensures other { IfErr result (λ _. first_passes (λ line. bytes_eq line text.now) cursor.old.lines ≡ false) }
    ensures fault { IfErr result (λ fault. fault ≡ faults.Text cursor.old.line what) }
{
    let line = cursor.line();
    let bytes = next_line(cursor, what)?;
    if bytes != text {
        return Err(CellTextFault::Text { line, what });
    }
    Ok(())
}

// Takes the line of the number of points.
pub(crate) fn points_line(cursor: &mut LineCursor<'_>) -> Result<u32, CellTextFault>
    ensures taken { IfOk result (λ n. cursor.old.lines ≡ (codes "points " ++ decimal n) ∷ cursor.new.lines) }
    ensures some { IfOk result (λ n. 1 ≤ n) }
    ensures few { IfOk result (λ n. n ≤ MOST_POINTS) }
    ensures number { OnOk result (cursor.new.line ≡ cursor.old.line + 1) }
    ensures other { IfErr result (λ _. first_passes (λ line. is_some (points_on line)) cursor.old.lines ≡ false) }
    ensures fault { IfErr result (λ fault. fault ≡ faults.Text cursor.old.line words.Points) }
{
    let line = cursor.line();
    let bytes = next_line(cursor, CellWord::Points)?;
    match read_points(bytes) {
        Some(points) => Ok(points),
        None => Err(CellTextFault::Text {
            line,
            what: CellWord::Points,
        }),
    }
}

// There is to be no further line.
pub(crate) fn no_line(cursor: &mut LineCursor<'_>) -> Result<(), CellTextFault>
    ensures none { OnOk result (cursor.old.lines ≡ []) }
    ensures some { IfErr result (λ _. 0 < length cursor.old.lines) }
    ensures fault { IfErr result (λ fault. fault ≡ faults.Text cursor.old.line words.Extra) }
{
    let line = cursor.line();
    match cursor.take() {
        Some(_) => Err(CellTextFault::Text {
            line,
            what: CellWord::Extra,
        }),
        None => Ok(()),
    }
}
