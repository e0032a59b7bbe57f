//! Entries from a sorted list of codes. A code is the `pair_code` of the two colours over a point,
//! so codes are in the order of the entries.

ghost use Rattle.std.specs.Prelude.{◌≡◌, ◌≢◌, ◌+◌, ◌^◌, ◌<◌, IfOk, length, slice_index};
ghost use Rattle.std.specs.Bool.{OnTrue, OnFalse};
ghost use Rattle.std.specs.List.Sorted.{IsNonDecreasing};
ghost use Rattle.triangle_count.specs.Runs.{IsTally, code_of};

use crate::rows::{Entry, Row};
use pair_colours::{NoMemory, code_pair};
use std::alloc::Global;

// The entry of the two colours of a code.
fn entry(code: u64, count: u32) -> Entry
    ensures code { code_of result ≡ code }
    ensures right { result.right < 2 ^ 32 }
    ensures count { result.count ≡ count }
{
    let (left, right) = code_pair(code);
    Entry { left, right, count }
}

// Whether another code, or none, follows the one at a place.
fn ends_run(codes: &[u64], i: usize) -> bool
    requires { i < length codes.now }
    ensures ends { OnTrue result (i + 1 < length codes.now → slice_index codes.now (i + 1) ≢ slice_index codes.now i) }
    ensures goes_on { OnFalse result ((i + 1 < length codes.now) × (slice_index codes.now (i + 1) ≡ slice_index codes.now i)) }
{
    i + 1 == codes.len() || codes[i + 1] != codes[i]
}

// An entry for each run of one code.
pub(crate) fn runs(alloc: Global, codes: &[u64]) -> Result<Row, NoMemory>
    requires short { length codes.now < 2 ^ 32 }
    requires sorted { IsNonDecreasing codes.now }
    ensures { IfOk result (λ row. IsTally codes.now row) }
{
    let mut entries = Vec::new(alloc);
    let mut start = 0;
    for i in 0..codes.len() {
        if ends_run(codes, i) {
            entries.push(entry(codes[i], (i + 1 - start) as u32))?;
            start = i + 1;
        }
    }
    Ok(Row { entries })
}
