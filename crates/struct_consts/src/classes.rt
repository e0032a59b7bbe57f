//! What is kept of one class.

ghost use Rattle.std.specs.Prelude.{◌≡◌, ◌<◌, Some, IfOk};
ghost use Rattle.pair_colours.specs.Colouring.{FitsColouring, colour_at};
ghost use Rattle.pair_colours.specs.Naming.{first_pair_of};
ghost use Rattle.struct_consts.specs.ClassData.{IsConfiguration, row_count, class_size};
ghost use Rattle.struct_consts.specs.Kept.{IsClassData, IsConstants};

use crate::passes::{class_sizes, first_pairs};
use pair_colours::{Colouring, NoMemory};
use smallvec::SmallVec;
use std::alloc::Global;
use triangle_count::{Entry, row_at};

// How many entries of a row are kept beside the other data of its class; a longer row has an
// allocation of its own.
const SHORT_ROW: usize = 8;

// The data of a class, counted from its first pair.
#[derive(Drop)]
pub(crate) struct Class {
    pub(crate) pair: (u32, u32),
    pub(crate) transpose: u32,
    pub(crate) valency: u32,
    pub(crate) size: u32,
    pub(crate) fibres: (u32, u32),
    pub(crate) row: SmallVec<Entry, SHORT_ROW>,
}

// The data of all classes, in their order.
pub(crate) fn classes_of(alloc: Global, k: &Colouring) -> Result<Vec<Class>, NoMemory>
    requires fits { FitsColouring k.now }
    requires configuration { IsConfiguration k.now }
    ensures { IfOk result (λ classes. IsConstants k.now classes.items) }
{
    let rank = k.rank(alloc)?;
    let pairs = first_pairs(alloc, k, rank)?;
    let sizes = class_sizes(alloc, k, rank)?;
    let mut classes = Vec::with_capacity(alloc, rank as usize)?;
    for colour in 0..rank {
        let Some(pair) = pairs[colour as usize] else {
            unreachable!()
        };
        let size = sizes[colour as usize];
        classes.push(class_of(alloc, k, colour, pair, size)?)?;
    }
    Ok(classes)
}

// The data of the class `colour`, of which the first pair and the size are known.
fn class_of(
    alloc: Global,
    k: &Colouring,
    colour: u32,
    pair: (u32, u32),
    size: u32,
) -> Result<Class, NoMemory>
    requires first { first_pair_of k.now colour ≡ Some pair }
    requires row { pair.0 < k.now.size }
    requires column { pair.1 < k.now.size }
    requires size { size ≡ class_size k.now colour }
    ensures { IfOk result (λ class. IsClassData k.now colour class) }
{
    let (x, y) = pair;
    let row = row_at(alloc, k, x, y)?;
    Ok(Class {
        pair,
        transpose: k.get(y, x),
        valency: count_from(k, x, colour),
        size,
        fibres: (k.get(x, x), k.get(y, y)),
        row: SmallVec::from_slice(alloc, row.as_slice())?,
    })
}

// How many points have the colour from x.
fn count_from(k: &Colouring, x: u32, colour: u32) -> u32
    requires { x < k.now.size }
    ensures { result ≡ row_count k.now x colour }
{
    let mut count = 0;
    for v in 0..k.size() {
        if k.get(x, v) == colour {
            count += 1;
        }
    }
    count
}
