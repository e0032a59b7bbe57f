//! The lines of a trace that are left to read.

ghost use Rattle.std.specs.Prelude.{◌≡◌, ◌+◌, ◌<◌, ◌≤◌, ◌^◌, ◌∷◌, ◌++◌, [], false, map, length, IfOk, IfErr, OnOk, bytes_eq, codes, decimal, is_some};
ghost use Rattle.pair_colours.specs.declared.coloured_pairs.TheConstants.{MOST_POINTS};
ghost use Rattle.text_lines.specs.Lines.{lines_of};
ghost use Rattle.trace_text.specs.declared.trace_faults.TraceFault.TheVariants as faults;
ghost use Rattle.trace_text.specs.declared.trace_faults.TraceWord.TheVariants as words;
ghost use Rattle.trace_text.specs.TraceFault.{version_on};
ghost use Rattle.trace_text.specs.Versions.{IsVersion};
ghost use Rattle.text_lines.specs.PointsLine.{points_on};
ghost use Rattle.text_lines.specs.LineCursor.{first_passes};

use crate::trace_faults::{TraceFault, TraceWord};
use std::marker::Model;
use text_lines::{LineCursor, read_points};

// The lines that are left to read.
#[derive(Drop)]
pub(crate) struct TraceCursor<'a> {
    left: LineCursor<'a>,
}

impl<'a> Model for TraceCursor<'a> {
    ghost use Rattle.text_lines.specs.LineCursor.{Cursor};

    ghost Value = { Cursor };

    ghost view = { λ cursor. cursor.left };
}

impl<'a> TraceCursor<'a> {
    // All lines of a text.
    pub(crate) fn new(text: &'a [u8]) -> TraceCursor<'a>
        requires { length text.now < 2 ^ 31 }
        ensures { result ≡ record { line = 1; lines = map (λ part. part.bytes) (lines_of text.now) } }
    {
        TraceCursor {
            left: LineCursor::new(text),
        }
    }

    // The number of the next line.
    pub(crate) fn line(&self) -> u32
        ensures line { result ≡ self.now.line }
        ensures within { result + length self.now.lines < 2 ^ 32 }
    {
        self.left.line()
    }

    // Takes the next line. If there is none, this was expected.
    pub(crate) fn take(&mut self, what: TraceWord) -> Result<&'a [u8], TraceFault>
        ensures taken { IfOk result (λ line. self.old.lines ≡ line.now ∷ self.new.lines) }
        ensures number { OnOk result (self.new.line ≡ self.old.line + 1) }
        ensures none { IfErr result (λ _. self.old.lines ≡ []) }
        ensures fault { IfErr result (λ fault. fault ≡ faults.Text self.old.line what) }
    {
        let line = self.left.line();
        match self.left.take() {
            Some(bytes) => Ok(bytes),
            None => Err(TraceFault::Text { line, what }),
        }
    }

    // Takes the next line, which is to be this.
    pub(crate) fn fixed(&mut self, text: &[u8], what: TraceWord) -> Result<(), TraceFault>
        ensures taken { OnOk result (self.old.lines ≡ text.now ∷ self.new.lines) }
        ensures number { OnOk result (self.new.line ≡ self.old.line + 1) }
        ensures other { IfErr result (λ _. first_passes (λ line. bytes_eq line text.now) self.old.lines ≡ false) }
        ensures fault { IfErr result (λ fault. fault ≡ faults.Text self.old.line what) }
    {
        let line = self.line();
        let bytes = self.take(what)?;
        if bytes != text {
            return Err(TraceFault::Text { line, what });
        }
        Ok(())
    }

    // Takes the first line, which tells the version.
    pub(crate) fn version(&mut self) -> Result<u32, TraceFault>
        ensures taken { IfOk result (λ version. self.old.lines ≡ (codes "trace " ++ decimal version) ∷ self.new.lines) }
        ensures known { IfOk result (λ version. IsVersion version) }
        ensures number { OnOk result (self.new.line ≡ self.old.line + 1) }
        ensures other { IfErr result (λ _. first_passes (λ line. is_some (version_on line)) self.old.lines ≡ false) }
        ensures fault { IfErr result (λ fault. fault ≡ faults.Text self.old.line words.Head) }
    {
        let line = self.line();
        let bytes = self.take(TraceWord::Head)?;
        match version_in(bytes) {
            Some(version) => Ok(version),
            None => Err(TraceFault::Text {
                line,
                what: TraceWord::Head,
            }),
        }
    }

    // Takes the line of the number of points.
    pub(crate) fn points(&mut self) -> Result<u32, TraceFault>
        ensures taken { IfOk result (λ n. self.old.lines ≡ (codes "points " ++ decimal n) ∷ self.new.lines) }
        ensures some { IfOk result (λ n. 1 ≤ n) }
        ensures few { IfOk result (λ n. n ≤ MOST_POINTS) }
        ensures number { OnOk result (self.new.line ≡ self.old.line + 1) }
        ensures other { IfErr result (λ _. first_passes (λ line. is_some (points_on line)) self.old.lines ≡ false) }
        ensures fault { IfErr result (λ fault. fault ≡ faults.Text self.old.line words.Points) }
    {
        let line = self.line();
        let bytes = self.take(TraceWord::Points)?;
        match read_points(bytes) {
            Some(points) => Ok(points),
            None => Err(TraceFault::Text {
                line,
                what: TraceWord::Points,
            }),
        }
    }

    // There is to be no further line.
    pub(crate) fn end(&mut self) -> Result<(), TraceFault>
        ensures none { OnOk result (self.old.lines ≡ []) }
        ensures some { IfErr result (λ _. 0 < length self.old.lines) }
        ensures fault { IfErr result (λ fault. fault ≡ faults.Text self.old.line words.Extra) }
    {
        let line = self.left.line();
        match self.left.take() {
            Some(_) => Err(TraceFault::Text {
                line,
                what: TraceWord::Extra,
            }),
            None => Ok(()),
        }
    }
}

// The version that a line tells, if it does.
fn version_in(line: &[u8]) -> Option<u32>
    ensures { result ≡ version_on line.now }
{
    if line == b"trace 1".as_slice() {
        return Some(1);
    }
    if line == b"trace 2".as_slice() {
        return Some(2);
    }
    None
}
