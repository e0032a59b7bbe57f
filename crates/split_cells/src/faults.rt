//! Whether a partition is coherent, or else by what step it can be split.
//!
//! First the axioms about the diagonal and the transposed classes, then that the pairs of a class
//! come from one fibre; then the triangle numbers, by codes. The triangle numbers of a pair (x, y)
//! are the pairs of classes in the rows from x and from y, as the transposed class is known.

ghost use Rattle.std.specs.Prelude.{◌≡◌, ℕ, ◌*◌, ◌/◌, ◌<◌, IfOk, IfSome, IfNone, length, slice_index};
ghost use Rattle.pair_colours.specs.Closure.{Coherent};
ghost use Rattle.split_cells.specs.Segments.{bound_of};
ghost use Rattle.split_cells.specs.Grids.{IsUsed};
ghost use Rattle.split_cells.specs.Pairs.{IsClassed, fibre_of, partition_of};
ghost use Rattle.split_cells.specs.Faults.{HasHomes, HasLikeRowsOnce, IsSettled, SplitsTwo};
ghost use Rattle.split_cells.specs.FirstPairs.{IsHomeOfFirst, IsLikeFirst};
ghost use Rattle.split_cells.specs.Codes.{IsCodeTable, IsCoded};
ghost use Rattle.wl_round.specs.CodeCounts.{AreBlank};
ghost use Rattle.split_cells.specs.Fellows.{AreFellows, HasCodeCounts, triangle_over};

use crate::classed_pairs::ClassedPairs;
use crate::codes::{Codes, code_rows, short_numbers};
use crate::gathering::diagonal_key;
use pair_colours::NoMemory;
use std::alloc::Global;
use trace_text::Step;
use wl_round::code_counts::{clear, count_up, exceeding};

// A step that parts the pair at place p from the first one of its class, by the diagonal or by the
// class of the transposed pair.
fn unsettled_pair(pairs: &ClassedPairs, p: u32) -> Option<Step>
    requires classed { IsClassed pairs.now }
    requires used { IsUsed pairs.now.parting.class.items pairs.now.parting.rank }
    requires inside { p < bound_of pairs.now.parting }
    ensures some { IfSome result (λ step. SplitsTwo (partition_of pairs.now) pairs.now.parting.rank step) }
    ensures none { IfNone result (IsLikeFirst pairs.now p) }
{
    let class = pairs.parting.class[p as usize];
    let first = pairs.parting.first(class);
    if diagonal_key(&pairs.size, p) != diagonal_key(&pairs.size, first) {
        return Some(Step::Diag { class });
    }
    let other = pairs.turned[first as usize];
    if pairs.turned[p as usize] != other {
        return Some(Step::Flip { class, other });
    }
    None
}

// A step that parts a class by the diagonal or by the classes of the transposed pairs.
fn unsettled(pairs: &ClassedPairs) -> Option<Step>
    requires classed { IsClassed pairs.now }
    requires used { IsUsed pairs.now.parting.class.items pairs.now.parting.rank }
    ensures some { IfSome result (λ step. SplitsTwo (partition_of pairs.now) pairs.now.parting.rank step) }
    ensures none { IfNone result (IsSettled (partition_of pairs.now)) }
{
    let points = pairs.size.points();
    for p in 0..points * points {
        if let Some(step) = unsettled_pair(pairs, p) {
            return Some(step);
        }
    }
    None
}

// The class of the diagonal pair at the first point of a pair.
fn home(pairs: &ClassedPairs, p: u32) -> u32
    requires classed { IsClassed pairs.now }
    requires inside { p < bound_of pairs.now.parting }
    ensures { result ≡ fibre_of pairs.now (p / pairs.now.size) }
{
    let x = pairs.size.first(p);
    pairs.row(x)[x as usize]
}

// A step that parts a class whose pairs come from two fibres.
fn without_home(pairs: &ClassedPairs) -> Option<Step>
    requires classed { IsClassed pairs.now }
    requires used { IsUsed pairs.now.parting.class.items pairs.now.parting.rank }
    requires settled { IsSettled (partition_of pairs.now) }
    ensures some { IfSome result (λ step. SplitsTwo (partition_of pairs.now) pairs.now.parting.rank step) }
    ensures none { IfNone result (HasHomes (partition_of pairs.now)) }
{
    let points = pairs.size.points();
    for p in 0..points * points {
        let class = pairs.parting.class[p as usize];
        let left = home(pairs, p);
        if home(pairs, pairs.parting.first(class)) != left {
            return Some(Step::Tri {
                class,
                left,
                right: class,
            });
        }
    }
    None
}

// The step by the classes over z of the pair at place q.
fn step_over(pairs: &ClassedPairs, q: u32, z: u32) -> Step
    requires classed { IsClassed pairs.now }
    requires inside { q < bound_of pairs.now.parting }
    requires point { z < pairs.now.size }
    ensures { result ≡ triangle_over pairs.now q z }
{
    Step::Tri {
        class: pairs.parting.class[q as usize],
        left: pairs.row(pairs.size.first(q))[z as usize],
        right: pairs.column(pairs.size.second(q))[z as usize],
    }
}

// A step that parts one of the pairs from the first one, whose codes are counted in `want`.
fn odd_pair(
    pairs: &ClassedPairs,
    codes: &Codes,
    want: &[u16],
    got: &mut [u16],
    members: &[u32],
) -> Option<Step>
    requires classed { IsClassed pairs.now }
    requires settled { IsSettled (partition_of pairs.now) }
    requires homes { HasHomes (partition_of pairs.now) }
    requires coded { IsCoded (partition_of pairs.now) codes.now }
    requires fellows { (a : ℕ) → a < length members.now → AreFellows pairs.now (slice_index members.now 0) (slice_index members.now a) }
    requires some { 0 < length members.now }
    requires want_len { length want.now ≡ pairs.now.size * pairs.now.size }
    requires want { HasCodeCounts pairs.now codes.now (slice_index members.now 0) want.now }
    requires got_len { length got.old ≡ pairs.now.size * pairs.now.size }
    requires got { (code : ℕ) → slice_index got.old code ≡ 0 }
    ensures some { IfSome result (λ step. SplitsTwo (partition_of pairs.now) pairs.now.parting.rank step) }
    ensures none { IfNone result ((a : ℕ) → a < length members.now → HasCodeCounts pairs.now codes.now (slice_index members.now a) want.now) }
    ensures got { IfNone result ((code : ℕ) → slice_index want.now code ≡ 0 → slice_index got.new code ≡ 0) }
{
    let size = pairs.size.points();
    let mut up = true;
    for a in 1..members.len() {
        let q = members[a];
        let left = codes.left(size, pairs.size.first(q));
        let right = codes.right(size, pairs.size.second(q));
        if let Some(z) = exceeding(want, got, up, left, right) {
            return Some(step_over(pairs, q, z as u32));
        }
        up = !up;
    }
    None
}

// A step that parts class k by triangles, unless the transposed class tells whether there is one.
fn triangle_fault_in(
    pairs: &ClassedPairs,
    codes: &Codes,
    want: &mut [u16],
    got: &mut [u16],
    k: u32,
) -> Option<Step>
    requires classed { IsClassed pairs.now }
    requires used { IsUsed pairs.now.parting.class.items pairs.now.parting.rank }
    requires class { k < pairs.now.parting.rank }
    requires settled { IsSettled (partition_of pairs.now) }
    requires homes { HasHomes (partition_of pairs.now) }
    requires coded { IsCoded (partition_of pairs.now) codes.now }
    requires blank { AreBlank (pairs.now.size * pairs.now.size) want.old got.old }
    ensures some { IfSome result (λ step. SplitsTwo (partition_of pairs.now) pairs.now.parting.rank step) }
    ensures none { IfNone result (HasLikeRowsOnce (partition_of pairs.now) k) }
    ensures blank { IfNone result (AreBlank (pairs.now.size * pairs.now.size) want.new got.new) }
{
    let members = pairs.parting.members(k);
    let first = members[0];
    if members.len() == 1 || pairs.turned[first as usize] < k {
        return None;
    }
    let size = pairs.size.points();
    let left = codes.left(size, pairs.size.first(first));
    let right = codes.right(size, pairs.size.second(first));
    count_up(want, left, right);
    if let Some(step) = odd_pair(pairs, codes, want, got, members) {
        return Some(step);
    }
    clear(got, left, right);
    clear(want, left, right);
    None
}

// A step that parts a class by triangles.
fn triangle_fault(
    pairs: &ClassedPairs,
    codes: &Codes,
    want: &mut [u16],
    got: &mut [u16],
) -> Option<Step>
    requires classed { IsClassed pairs.now }
    requires used { IsUsed pairs.now.parting.class.items pairs.now.parting.rank }
    requires settled { IsSettled (partition_of pairs.now) }
    requires homes { HasHomes (partition_of pairs.now) }
    requires coded { IsCoded (partition_of pairs.now) codes.now }
    requires blank { AreBlank (pairs.now.size * pairs.now.size) want.old got.old }
    ensures some { IfSome result (λ step. SplitsTwo (partition_of pairs.now) pairs.now.parting.rank step) }
    ensures none { IfNone result ((k : ℕ) → k < pairs.now.parting.rank → HasLikeRowsOnce (partition_of pairs.now) k) }
{
    for k in 0..pairs.parting.rank {
        if let Some(step) = triangle_fault_in(pairs, codes, want, got, k) {
            return Some(step);
        }
    }
    None
}

// A step that is not idle, by tables for the test.
fn fault_by(
    pairs: &ClassedPairs,
    short: &mut [u16],
    codes: &mut Codes,
    want: &mut [u16],
    got: &mut [u16],
) -> Option<Step>
    requires classed { IsClassed pairs.now }
    requires used { IsUsed pairs.now.parting.class.items pairs.now.parting.rank }
    requires short_len { length short.old ≡ pairs.now.parting.rank }
    requires short { (k : ℕ) → slice_index short.old k ≡ 0 }
    requires table { IsCodeTable pairs.now.size codes.old }
    requires blank { AreBlank (pairs.now.size * pairs.now.size) want.old got.old }
    ensures some { IfSome result (λ step. SplitsTwo (partition_of pairs.now) pairs.now.parting.rank step) }
    ensures none { IfNone result (Coherent (partition_of pairs.now)) }
{
    if let Some(step) = unsettled(pairs) {
        return Some(step);
    }
    if let Some(step) = without_home(pairs) {
        return Some(step);
    }
    short_numbers(pairs, short);
    if let Some(step) = code_rows(pairs, short, codes) {
        return Some(step);
    }
    triangle_fault(pairs, codes, want, got)
}

// So many counts 0.
fn zeros(alloc: Global, len: u32) -> Result<Vec<u16>, NoMemory>
    ensures len { IfOk result (λ v. length v.items ≡ len) }
    ensures zero { IfOk result (λ v. (k : ℕ) → slice_index v.items k ≡ 0) }
{
    let zeros = vec![in alloc; 0; len as usize]?;
    Ok(zeros)
}

// A step that is not idle; none where the partition is coherent.
pub(crate) fn fault(alloc: Global, pairs: &ClassedPairs) -> Result<Option<Step>, NoMemory>
    requires classed { IsClassed pairs.now }
    requires used { IsUsed pairs.now.parting.class.items pairs.now.parting.rank }
    ensures some { IfOk result (λ found. IfSome found (λ step. SplitsTwo (partition_of pairs.now) pairs.now.parting.rank step)) }
    ensures none { IfOk result (λ found. IfNone found (Coherent (partition_of pairs.now))) }
{
    let size = pairs.size.points();
    let mut short = zeros(alloc, pairs.parting.rank)?;
    let mut codes = Codes::new(alloc, size)?;
    let mut want = zeros(alloc, size * size)?;
    let mut got = zeros(alloc, size * size)?;
    let found = fault_by(pairs, &mut short, &mut codes, &mut want, &mut got);
    Ok(found)
}
