//! Why an array has no table.

ghost use Rattle.std.specs.Prelude.{◌≡◌};
ghost use Rattle.array_tables.specs.declared.refusals.TableFault.TheVariants.{NoMemory as fault_no_memory};

use pair_colours::NoMemory;
use std::alloc::{AllocError, AllocFailed};

/// Why there is no table of an array. The tests come in the order of the variants, and the first that
/// fails is told: it says that no distance-regular graph with at most 256 points has the array.
/// `NoMemory` says nothing of the array, and may stand in place of any answer but `FirstC`.
#[derive(Clone, Copy, Debug, PartialEq, Eq)]
pub enum TableFault {
    /// c_1 is not 1: between two points that are joined stands no other point.
    FirstC,
    /// b_i and c_i together are above b_0, and i is the least such index.
    Parts { i: u32 },
    /// c_i does not divide k_(i-1) times b_(i-1), so k_i is no number.
    Valency { i: u32 },
    /// There are more than 256 points at distance at most i from a point.
    TooManyPoints { i: u32 },
    /// What is to be divided for the intersection number of i, j and k is negative.
    Negative { i: u32, j: u32, k: u32 },
    /// The division for the intersection number of i, j and k leaves a rest.
    Division { i: u32, j: u32, k: u32 },
    /// There is not enough memory.
    NoMemory,
}

impl From<NoMemory> for TableFault {
    ghost from_gives = { λ _ fault. fault ≡ fault_no_memory };

    fn from(_error: NoMemory) -> TableFault {
        TableFault::NoMemory
    }
}

impl From<AllocError> for TableFault {
    ghost from_gives = { λ _ fault. fault ≡ fault_no_memory };

    fn from(_error: AllocError) -> TableFault {
        TableFault::NoMemory
    }
}

impl<T: Drop> From<AllocFailed<T>> for TableFault {
    ghost from_gives = { λ _ fault. fault ≡ fault_no_memory };

    fn from(_error: AllocFailed<T>) -> TableFault {
        TableFault::NoMemory
    }
}
