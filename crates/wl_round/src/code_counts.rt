//! How often the codes of a pair come, against those of the first pair of its class.
//!
//! As there are as many codes as points, none that comes more often means that all come equally
//! often. So one pass over the points is enough for a pair, and nothing has to be cleared: the
//! counts go up for one pair and down for the next.

ghost use Rattle.std.specs.Prelude.{◌≡◌, ℕ, ◌+◌, ◌*◌, ◌<◌, ◌≤◌, IfSome, IfNone, length, slice_index};
ghost use Rattle.std.specs.Bool.{OnTrue, OnFalse};
ghost use Rattle.wl_round.specs.CodeCounts.{AreSides, IsCountOf, sum_at, sum_count};

// Makes the counts of these sums 0.
pub fn clear(counts: &mut [u16], left: &[u16], right: &[u8])
    requires sides { AreSides left.now right.now (length counts.old) }
    requires others { (code : ℕ) → sum_count left.now right.now code ≡ 0 → slice_index counts.old code ≡ 0 }
    ensures { (code : ℕ) → slice_index counts.new code ≡ 0 }
{
    for z in 0..left.len() {
        counts[left[z] as usize + right[z] as usize] = 0;
    }
}

// Counts the sums.
pub fn count_up(counts: &mut [u16], left: &[u16], right: &[u8])
    requires sides { AreSides left.now right.now (length counts.old) }
    requires blank { (code : ℕ) → slice_index counts.old code ≡ 0 }
    ensures { (code : ℕ) → slice_index counts.new code ≡ sum_count left.now right.now code }
{
    for z in 0..left.len() {
        counts[left[z] as usize + right[z] as usize] += 1;
    }
}

// Counts the sums, unless one comes more often than it should: then a place where it does.
fn exceeding_up(want: &[u16], got: &mut [u16], left: &[u16], right: &[u8]) -> Option<usize>
    requires sides { AreSides left.now right.now (length got.old) }
    requires lens { length want.now ≡ length got.old }
    requires blank { (code : ℕ) → slice_index got.old code ≡ 0 }
    ensures some { IfSome result (λ z. (z < length left.now) × (slice_index want.now (sum_at left.now right.now z) < sum_count left.now right.now (sum_at left.now right.now z))) }
    ensures within { IfNone result ((code : ℕ) → sum_count left.now right.now code ≤ slice_index want.now code) }
    ensures counted { IfNone result ((code : ℕ) → slice_index got.new code ≡ sum_count left.now right.now code) }
    ensures low { (code : ℕ) → slice_index got.new code ≤ slice_index want.now code }
{
    for z in 0..left.len() {
        let code = left[z] as usize + right[z] as usize;
        if got[code] == want[code] {
            return Some(z);
        }
        got[code] += 1;
    }
    None
}

// Takes the sums off the counts, unless one comes more often: then a place where it does.
fn exceeding_down(counts: &mut [u16], left: &[u16], right: &[u8]) -> Option<usize>
    requires sides { AreSides left.now right.now (length counts.old) }
    ensures some { IfSome result (λ z. (z < length left.now) × (slice_index counts.old (sum_at left.now right.now z) < sum_count left.now right.now (sum_at left.now right.now z))) }
    ensures left { IfNone result ((code : ℕ) → slice_index counts.new code + sum_count left.now right.now code ≡ slice_index counts.old code) }
    ensures low { (code : ℕ) → slice_index counts.new code ≤ slice_index counts.old code }
{
    for z in 0..left.len() {
        let code = left[z] as usize + right[z] as usize;
        if counts[code] == 0 {
            return Some(z);
        }
        counts[code] -= 1;
    }
    None
}

// Compares how often the sums come with how often they should: a place where one comes more often,
// or none if all come equally often. What was counted before decides the way.
pub fn exceeding(
    want: &[u16],
    got: &mut [u16],
    up: bool,
    left: &[u16],
    right: &[u8],
) -> Option<usize>
    requires sides { AreSides left.now right.now (length got.old) }
    requires lens { length want.now ≡ length got.old }
    requires want { IsCountOf (length left.now) want.now }
    requires up { OnTrue up ((code : ℕ) → slice_index got.old code ≡ 0) }
    requires down { OnFalse up ((code : ℕ) → slice_index got.old code ≡ slice_index want.now code) }
    ensures some { IfSome result (λ z. (z < length left.now) × (slice_index want.now (sum_at left.now right.now z) < sum_count left.now right.now (sum_at left.now right.now z))) }
    ensures none { IfNone result ((code : ℕ) → sum_count left.now right.now code ≡ slice_index want.now code) }
    ensures up { IfNone result (OnTrue up ((code : ℕ) → slice_index got.new code ≡ slice_index want.now code)) }
    ensures down { IfNone result (OnFalse up ((code : ℕ) → slice_index got.new code ≡ 0)) }
    ensures low { (code : ℕ) → slice_index got.new code ≤ slice_index want.now code }
{
    if up {
        exceeding_up(want, got, left, right)
    } else {
        exceeding_down(got, left, right)
    }
}
