//! The transposed matrix.

ghost use Rattle.std.specs.Prelude.{◌≡◌, ◌*◌, ◌^◌, ◌<◌, IfOk, length};
ghost use Rattle.wl_round.specs.Sides.{IsTurned};

use pair_colours::NoMemory;
use std::alloc::Global;

/// The class of the transposed pair, for each pair.
pub fn transposed(alloc: Global, size: u32, class: &[u32]) -> Result<Vec<u32>, NoMemory>
    requires len { length class.now ≡ size * size }
    requires small { size * size < 2 ^ 31 }
    ensures { IfOk result (λ turned. IsTurned size class.now turned.items) }
{
    let mut turned = Vec::with_capacity(alloc, class.len())?;
    for x in 0..size {
        for y in 0..size {
            turned.push(class[(y * size + x) as usize])?;
        }
    }
    Ok(turned)
}
