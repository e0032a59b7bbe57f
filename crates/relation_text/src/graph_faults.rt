//! The faults of a graph line.

ghost use Rattle.std.specs.Prelude.{◌≡◌, ◌==◌, ◌≤◌, ◌<◌, ◌+◌, ◌-◌, ◌*◌, ◌/◌, ◌^◌, not, true, false, All, None, IfNone, IfSome, length, slice_index};
ghost use Rattle.std.specs.List.{list_any, position_or_len, range_with_len};
ghost use Rattle.text_lines.specs.Views.{part_of};
ghost use Rattle.pair_colours.specs.Tests.{first_that_holds};
ghost use Rattle.relation_text.specs.Bits as encoding;
ghost use Rattle.relation_text.specs.Orders.{pairs_of};
ghost use Rattle.relation_text.specs.Lines.{end_of};
ghost use Rattle.relation_text.specs.Faults as spec;

use crate::faults::{Fault, RelationWord};
use crate::graph_bits::bit_in;
use crate::graph_format::GraphFormat;
use pair_colours::MOST_POINTS;
use text_lines::TextPart;

// The first fault of a graph line, without the ampersand of a digraph6 line.
pub(crate) fn graph_fault(format: GraphFormat, body: TextPart<'_>) -> Option<Fault>
    ensures fault { result ≡ first_that_holds (spec.graph_tests format (part_of body.entry)) }
    ensures within { IfSome result (λ fault. fault.1 ≤ end_of (part_of body.entry)) }
{
    if let Some(fault) = byte_fault(body) {
        return Some(fault);
    }
    if let Some(fault) = size_fault(body) {
        return Some(fault);
    }
    bits_fault(format, body)
}

// A line that is empty, or a byte that holds no six bits.
fn byte_fault(body: TextPart<'_>) -> Option<Fault>
    ensures fault { result ≡ first_that_holds (spec.byte_tests (part_of body.entry)) }
    ensures within { IfSome result (λ fault. fault.1 ≤ end_of (part_of body.entry)) }
{
    if body.bytes.is_empty() {
        return Some((RelationWord::WrongLength, body.start));
    }
    match bad_byte(body.bytes) {
        Some(place) => Some((RelationWord::BadByte, body.start + place)),
        None => None,
    }
}

// The place of the first byte that holds no six bits.
fn bad_byte(bytes: &[u8]) -> Option<usize>
    ensures none { IfNone result (list_any (λ b. not (spec.is_graph_byte b)) bytes.now ≡ false) }
    ensures some { IfSome result (λ _. list_any (λ b. not (spec.is_graph_byte b)) bytes.now ≡ true) }
    ensures first { IfSome result (λ place. place ≡ position_or_len (λ b. not (spec.is_graph_byte b)) bytes.now) }
    ensures within { IfSome result (λ place. place < length bytes.now) }
{
    bytes.iter().position(|b| !(63..=126).contains(b))
}

// A size that is none, too large, or not in its one form.
fn size_fault(body: TextPart<'_>) -> Option<Fault>
    requires { first_that_holds (spec.byte_tests (part_of body)) ≡ None }
    ensures fault { result ≡ first_that_holds (spec.size_tests (part_of body.entry)) }
    ensures within { IfSome result (λ fault. fault.1 ≤ end_of (part_of body.entry)) }
{
    let bytes = body.bytes;
    let end = body.start + bytes.len();
    if bytes[0] == 63 {
        return Some((RelationWord::NoPoints, body.start));
    }
    if bytes[0] != 126 {
        return None;
    }
    if bytes.get(1) == Some(&126) {
        return Some((RelationWord::TooManyPoints, body.start));
    }
    if bytes.len() < 4 {
        return Some((RelationWord::WrongLength, end));
    }
    let size = long_size(bytes);
    if size <= 62 {
        return Some((RelationWord::SizeForm, body.start));
    }
    if size > MOST_POINTS as usize {
        return Some((RelationWord::TooManyPoints, body.start));
    }
    None
}

// The number in the three bytes of the long form of a size.
fn long_size(bytes: &[u8]) -> usize
    requires four { 4 ≤ length bytes.now }
    requires printable { All (λ b. 63 ≤ b) bytes.now }
    ensures { result ≡ spec.long_size bytes.now }
{
    usize::from(bytes[1] - 63) * 4096 + usize::from(bytes[2] - 63) * 64 + usize::from(bytes[3] - 63)
}

// The number of points that a graph line begins with.
pub(crate) fn size_of(bytes: &[u8]) -> usize
    requires some { 0 < length bytes.now }
    requires printable { All (λ b. 63 ≤ b) bytes.now }
    requires four { slice_index bytes.now 0 ≡ 126 → 4 ≤ length bytes.now }
    ensures { result ≡ spec.size_of bytes.now }
{
    if bytes[0] == 126 {
        long_size(bytes)
    } else {
        usize::from(bytes[0] - 63)
    }
}

// How many bytes a size takes.
pub(crate) fn size_len(size: usize) -> usize
    ensures { result ≡ encoding.size_len size }
{
    if size <= 62 { 1 } else { 4 }
}

// How many bits the format has for a size.
fn bit_count(format: GraphFormat, size: usize) -> usize
    requires { size ≤ MOST_POINTS }
    ensures count { result ≡ length (pairs_of format size) }
    ensures few { result ≤ MOST_POINTS * MOST_POINTS }
{
    match format {
        GraphFormat::Graph => size * size.saturating_sub(1) / 2,
        GraphFormat::Digraph => size * size,
    }
}

// A line that has too few or too many bytes for its size, or a bit that only fills up the last byte
// and is not 0.
fn bits_fault(format: GraphFormat, body: TextPart<'_>) -> Option<Fault>
    requires bytes { first_that_holds (spec.byte_tests (part_of body)) ≡ None }
    requires size { first_that_holds (spec.size_tests (part_of body)) ≡ None }
    ensures fault { result ≡ first_that_holds (spec.bits_tests format (part_of body.entry)) }
    ensures within { IfSome result (λ fault. fault.1 ≤ end_of (part_of body.entry)) }
{
    let bytes = body.bytes;
    let end = body.start + bytes.len();
    let size = size_of(bytes);
    let count = bit_count(format, size);
    let len = count.div_ceil(6);
    if bytes.len() != size_len(size) + len {
        return Some((RelationWord::WrongLength, end));
    }
    let (_, bits) = bytes.split_at(size_len(size));
    if has_padding(bits, count, len) {
        return Some((RelationWord::PadBits, end - 1));
    }
    None
}

// Whether a bit from a place on is 1.
fn has_padding(bits: &[u8], count: usize, len: usize) -> bool
    requires enough { len ≤ length bits.now }
    requires few { len ≤ MOST_POINTS * MOST_POINTS }
    requires printable { All (λ b. 63 ≤ b) bits.now }
    ensures { result ≡ list_any (encoding.bit_in bits.now) (range_with_len count (6 * len - count)) }
{
    (count..6 * len).any(|k| bit_in(bits, k))
}
