//! What `array` answers.

ghost use Rattle.std.specs.Prelude.{◌≡◌};
ghost use Rattle.drg_arrays.specs.declared.answer.ArrayFault.TheVariants.{NoMemory as fault_no_memory};

use pair_colours::{NoMemory, Numbers};

/// What the graph of a set of colours is. Points and pairs are those of the colouring, and pairs are
/// taken row by row, the diagonal ones in their places.
#[derive(Drop)]
pub enum ArrayAnswer {
    /// It is distance-regular, with this intersection array.
    Array {
        /// b_0 to b_(d-1), where d is the diameter.
        b: Numbers,
        /// c_1 to c_d.
        c: Numbers,
    },
    /// No walk leads from x to y, and (x, y) is the first such pair.
    Disconnected {
        x: u32,
        y: u32,
    },
    /// Each pair has a walk, and (u, v) is the first pair whose c or b differs from that of (x, y),
    /// the first pair at the same distance.
    Irregular {
        x: u32,
        y: u32,
        u: u32,
        v: u32,
    },
}

/// Why there is no answer.
#[derive(Clone, Copy, Debug, PartialEq, Eq)]
pub enum ArrayFault {
    /// The set is empty, or holds a number that is no colour of a pair, or a diagonal pair has a
    /// colour of the set, or a pair has one and its transposed pair has none.
    BadSet,
    /// There is not enough memory.
    NoMemory,
}

impl From<NoMemory> for ArrayFault {
    ghost from_gives = { λ _ fault. fault ≡ fault_no_memory };

    fn from(_error: NoMemory) -> ArrayFault {
        ArrayFault::NoMemory
    }
}
