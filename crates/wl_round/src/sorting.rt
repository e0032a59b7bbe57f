//! Numbers with their places, sorted.

ghost use Rattle.std.specs.Prelude.{◌^◌, ◌<◌, IfOk, length};
ghost use Rattle.wl_round.specs.Sorting.{AreSorted};

use pair_colours::{NoMemory, pair_code};
use std::alloc::Global;

/// The numbers of a list with their places, in rising order: each number times 2^32 and its place.
pub fn sorted_codes(alloc: Global, numbers: &[u32]) -> Result<Vec<u64>, NoMemory>
    requires { length numbers.now < 2 ^ 31 }
    ensures { IfOk result (λ codes. AreSorted numbers.now codes.items) }
{
    let mut codes = Vec::with_capacity(alloc, numbers.len())?;
    for p in 0..numbers.len() {
        codes.push(pair_code(numbers[p], p as u32))?;
    }
    codes.sort_unstable();
    Ok(codes)
}
