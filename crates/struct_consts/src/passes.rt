//! What one pass over all pairs tells of every class.

ghost use Rattle.std.specs.Prelude.{IfOk};
ghost use Rattle.struct_consts.specs.ClassData.{HasColoursBelow};
ghost use Rattle.struct_consts.specs.Kept.{HasFirstPairs, HasSizes};

use pair_colours::{Colouring, NoMemory, pair_on_walk};
use std::alloc::Global;

// The first pair of each class in the naming walk.
pub(crate) fn first_pairs(
    alloc: Global,
    k: &Colouring,
    rank: u32,
) -> Result<Vec<Option<(u32, u32)>>, NoMemory>
    requires { HasColoursBelow k.now rank }
    ensures { IfOk result (λ pairs. HasFirstPairs k.now rank pairs.items) }
{
    let size = k.size();
    let mut pairs = vec![in alloc; None; rank as usize]?;
    for place in 0..size * size {
        let (x, y) = pair_on_walk(size, place);
        let colour = k.get(x, y) as usize;
        pairs[colour] = Some(pairs[colour].unwrap_or((x, y)));
    }
    Ok(pairs)
}

// How many pairs each class has.
pub(crate) fn class_sizes(alloc: Global, k: &Colouring, rank: u32) -> Result<Vec<u32>, NoMemory>
    requires { HasColoursBelow k.now rank }
    ensures { IfOk result (λ sizes. HasSizes k.now rank sizes.items) }
{
    let mut sizes = vec![in alloc; 0; rank as usize]?;
    for colour in k.colours() {
        sizes[*colour as usize] += 1;
    }
    Ok(sizes)
}
