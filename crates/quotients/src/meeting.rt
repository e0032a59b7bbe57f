//! The colours that are met between classes.

ghost use Rattle.std.specs.Prelude.{◌≡◌, ◌<◌, IfOk, All, length};
ghost use Rattle.quotients.specs.Steps.{IsLeastMet};

use pair_colours::{Colouring, NoMemory};
use std::alloc::Global;

// Between the classes of each two points, the least colour that is met; it stands at the pair of
// their least points.
pub(crate) fn least_met(alloc: Global, k: &Colouring, leasts: &[u32]) -> Result<Colouring, NoMemory>
    requires len { length leasts.now ≡ k.now.size }
    requires points { All (λ least. least < k.now.size) leasts.now }
    ensures { IfOk result (IsLeastMet k.now leasts.now) }
{
    let size = k.size();
    let mut met = Colouring::new(alloc, size, u32::MAX)?;
    for x in 0..size {
        let row = leasts[x as usize];
        for y in 0..size {
            let column = leasts[y as usize];
            let colour = k.get(x, y);
            if colour < met.get(row, column) {
                met.set(row, column, colour);
            }
        }
    }
    Ok(met)
}
