//! One round of refinement.

ghost use Rattle.std.specs.Prelude.{◌≡◌, ℕ, ◌<◌, IfOk, length, slice_index};
ghost use Rattle.pair_colours.specs.Naming.{named_of};
ghost use Rattle.pair_colours.specs.Rounds.{IsRound};
ghost use Rattle.wl_round.specs.Coming.{IsComing};

use crate::hashing::hashed;
use crate::sweeping::sweep;
use pair_colours::{Colouring, NoMemory};
use std::alloc::Global;

// The round, reached by sweeps from a colouring that parts no two pairs that are alike.
pub(crate) fn round_from(
    alloc: Global,
    colouring: &Colouring,
    start: Colouring,
) -> Result<Colouring, NoMemory>
    requires numbers { (p : ℕ) → p < length colouring.now.colours → slice_index colouring.now.colours p < length colouring.now.colours }
    requires coming { IsComing colouring.now start }
    ensures round { IfOk result (λ round. IsRound colouring.now round) }
    ensures named { IfOk result (λ round. named_of round ≡ round) }
{
    let mut round = start;
    while let Some(marks) = sweep(alloc, colouring, &round)? {
        round = round.meet(alloc, &marks)?;
    }
    Ok(round)
}

/// One round of Weisfeiler-Leman refinement (1968): the named colouring in which two pairs have one
/// colour exactly where they are alike. Each colour is to be below the number of pairs, as it is in a
/// partition.
pub fn round_of(alloc: Global, colouring: &Colouring) -> Result<Colouring, NoMemory>
    requires { (p : ℕ) → p < length colouring.now.colours → slice_index colouring.now.colours p < length colouring.now.colours }
    ensures round { IfOk result (λ round. IsRound colouring.now round) }
    ensures named { IfOk result (λ round. named_of round ≡ round) }
{
    let _size = colouring.size();
    let hashes = hashed(alloc, colouring)?;
    let start = colouring.meet(alloc, &hashes)?;
    round_from(alloc, colouring, start)
}
