//! Two numbers as one, for lists of pairs of numbers that are sorted, counted or compared.

ghost use Rattle.std.specs.Prelude.{◌≡◌, ◌^◌, ◌<◌, IfOk};
ghost use Rattle.pair_colours.specs.Colouring.{FitsColouring};
ghost use Rattle.pair_colours.specs.SideCodes.{code_of_pair, side_codes};

use crate::coloured_pairs::Colouring;
use crate::no_memory::NoMemory;
use std::alloc::Global;

// One above the greatest number of a pair.
const NUMBERS: u64 = 0x1_0000_0000;

/// Two numbers as one, `left` in its upper half. So codes are in the order of `left` and then
/// `right`, and no two pairs of numbers have one code.
pub fn pair_code(left: u32, right: u32) -> u64
    ensures { result ≡ code_of_pair left right }
{
    u64::from(left) * NUMBERS + u64::from(right)
}

/// The two numbers of a code, left and right.
pub fn code_pair(code: u64) -> (u32, u32)
    ensures code { code_of_pair result.0 result.1 ≡ code }
    ensures right { result.1 < 2 ^ 32 }
{
    ((code / NUMBERS) as u32, (code % NUMBERS) as u32)
}

/// The colours from x to z and from z to y as one number, for each point z.
pub fn side_codes(
    alloc: Global,
    colouring: &Colouring,
    x: u32,
    y: u32,
) -> Result<Vec<u64>, NoMemory>
    requires row { x < colouring.now.size }
    requires column { y < colouring.now.size }
    ensures codes { IfOk result (λ codes. codes.items ≡ side_codes colouring.now x y) }
    ensures within { IfOk result (λ _. FitsColouring colouring.now) }
{
    let mut codes = Vec::with_capacity(alloc, colouring.size() as usize)?;
    for z in 0..colouring.size() {
        codes.push(pair_code(colouring.get(x, z), colouring.get(z, y)))?;
    }
    Ok(codes)
}
