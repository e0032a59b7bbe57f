//! Numbers for equal entries of a list, which naming, refining and meeting share.

ghost use Rattle.std.specs.Prelude.{◌≡◌, ◌↔◌, ◌^◌, ◌<◌, ◌≤◌, All, IsTrue, IfOk, length};
ghost use Rattle.pair_colours.specs.Lists.{Determines, IsPaired};

use crate::no_memory::NoMemory;
use crate::pair_codes::pair_code;
use indexmap::{IndexMap, IndexSet};
use std::alloc::Global;

// Whether equal numbers of the one list stand over equal numbers of the other.
pub(crate) fn determines(alloc: Global, xs: &[u32], ys: &[u32]) -> Result<bool, NoMemory>
    requires { length xs.now ≡ length ys.now }
    ensures { IfOk result (λ answer. IsTrue answer ↔ Determines xs.now ys.now) }
{
    let mut over: IndexMap<u32, u32> = IndexMap::new(alloc);
    for i in 0..xs.len() {
        if let Some(before) = over.insert(xs[i], ys[i])? {
            if before != ys[i] {
                return Ok(false);
            }
        }
    }
    Ok(true)
}

// One number for the two numbers at each place.
pub(crate) fn paired(alloc: Global, xs: &[u32], ys: &[u32]) -> Result<Vec<u64>, NoMemory>
    requires { length xs.now ≡ length ys.now }
    ensures len { IfOk result (λ codes. length codes.items ≡ length xs.now) }
    ensures code { IfOk result (λ codes. IsPaired xs.now ys.now codes.items) }
{
    let mut codes = Vec::new(alloc);
    for i in 0..xs.len() {
        codes.push(pair_code(xs[i], ys[i]))?;
    }
    Ok(codes)
}

// Numbers for the codes: equal ones for equal codes alone.
pub(crate) fn numbers_of(alloc: Global, codes: &[u64]) -> Result<Vec<u32>, NoMemory>
    requires { length codes.now < 2 ^ 32 }
    ensures len { IfOk result (λ numbers. length numbers.items ≡ length codes.now) }
    ensures small { IfOk result (λ numbers. All (λ number. number < 2 ^ 32) numbers.items) }
    ensures apart { IfOk result (λ numbers. Determines numbers.items codes.now) }
    ensures together { IfOk result (λ numbers. Determines codes.now numbers.items) }
{
    let mut numbers = Vec::new(alloc);
    let mut seen: IndexSet<u64> = IndexSet::new(alloc);
    for i in 0..codes.len() {
        let (number, _) = seen.insert_full(codes[i])?;
        numbers.push(number as u32)?;
    }
    Ok(numbers)
}
