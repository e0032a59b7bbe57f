//! Why the list of fusions is not delivered.

ghost use Rattle.std.specs.Prelude.{◌≡◌};
ghost use Rattle.mergings.specs.declared.faults.MergeFault.TheVariants.{NoMemory as fault_no_memory};

use pair_colours::NoMemory;

/// Why the list of fusions is not delivered.
#[derive(Clone, Copy, Debug, PartialEq, Eq)]
pub enum MergeFault {
    /// The configuration has more than 16 colours.
    RankAbove {
        /// Its number of colours.
        rank: u32,
    },
    /// The string after which the list is to begin is no growth string of its number of colours.
    NotGrowth,
    /// There is not enough memory.
    NoMemory,
}

impl From<NoMemory> for MergeFault {
    ghost from_gives = { λ _ fault. fault ≡ fault_no_memory };

    fn from(_error: NoMemory) -> MergeFault {
        MergeFault::NoMemory
    }
}
