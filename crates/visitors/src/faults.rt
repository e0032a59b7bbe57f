//! Why a list is not delivered.

ghost use Rattle.std.specs.Prelude.{◌≡◌};
ghost use Rattle.visitors.specs.declared.faults.RankFault.TheVariants.{NoMemory as fault_no_memory};

use pair_colours::NoMemory;

/// Why a list of sets of colours is not delivered.
#[derive(Clone, Copy, Debug, PartialEq, Eq)]
pub enum RankFault {
    /// The configuration has more than 16 colours.
    RankAbove {
        /// Its number of colours.
        rank: u32,
    },
    /// There is not enough memory.
    NoMemory,
}

impl From<NoMemory> for RankFault {
    ghost from_gives = { λ _ fault. fault ≡ fault_no_memory };

    fn from(_error: NoMemory) -> RankFault {
        RankFault::NoMemory
    }
}
