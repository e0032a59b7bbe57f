//! The line on which a relation begins.

ghost use Rattle.std.specs.Prelude.{◌≡◌, ◌+◌, ◌^◌, ◌<◌, ◌≤◌, [], ◌∷◌, All, IfSome, MatchOption, length};
ghost use Rattle.text_lines.specs.Lines.{lines_of};
ghost use Rattle.text_lines.specs.Views.{part_of};
ghost use Rattle.relation_text.specs.Lines as spec;

use text_lines::{TextLines, TextPart};

// The chosen line, counted from 1, of the lines of a text; after it the lines after that one are
// left. The first line is without its header.
pub(crate) fn chosen_line<'a>(
    text: &[u8],
    left: &mut TextLines<'a>,
    line: u32,
) -> Option<TextPart<'a>>
    requires lines { left.old ≡ lines_of text.now }
    requires number { 1 ≤ line }
    requires limit { length text.now < 2 ^ 32 }
    ensures chosen { MatchOption result (spec.lines_at text.now line ≡ []) (λ chosen. spec.lines_at text.now line ≡ part_of chosen ∷ left.new) }
    ensures within { IfSome result (λ chosen. spec.end_of (part_of chosen) ≤ length text.now + 12) }
    ensures rest { IfSome result (λ _. All (λ part. spec.end_of part ≤ length text.now) left.new) }
{
    for _number in 1..line {
        left.next()?;
    }
    let chosen = left.next()?;
    if line == 1 {
        Some(part_after(chosen, header_len(text)))
    } else {
        Some(chosen)
    }
}

// How many bytes the header at the front of a text has.
fn header_len(text: &[u8]) -> usize
    ensures len { result ≡ spec.header_len text.now }
    ensures few { result ≤ 12 }
{
    if text.starts_with(b">>graph6<<") {
        10
    } else if text.starts_with(b">>digraph6<<") {
        12
    } else {
        0
    }
}

// The part without its first k bytes.
pub(crate) fn part_after(part: TextPart<'_>, k: usize) -> TextPart<'_>
    requires { part.start + k + length part.bytes.now < 2 ^ 64 }
    ensures { part_of result ≡ spec.part_after k (part_of part.entry) }
{
    let (_, bytes) = part.bytes.split_at(k.min(part.bytes.len()));
    TextPart {
        start: part.start + k,
        bytes,
    }
}
