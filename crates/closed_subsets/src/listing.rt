//! The list of the closed subsets.

ghost use Rattle.std.specs.Prelude.{◌≡◌, ◌≤◌, ◌<◌, ◌^◌, ℕ, [], OnOk, IfOk, IsErrOf};
ghost use Rattle.pair_colours.specs.ClosedSet.{ClosedSets};
ghost use Rattle.pair_colours.specs.Naming.{rank_of};
ghost use Rattle.visitors.specs.Lists.{IsFront, IsCut};
ghost use Rattle.visitors.specs.declared.visitor.TheConstants.{MOST_SET_RANK};
ghost use Rattle.closed_subsets.specs.Products.{AreClosedMasks};

use crate::closedness::is_closed;
use crate::products::products_of;
use pair_colours::NoMemory;
use std::alloc::Global;
use struct_consts::Constants;
use visitors::{MOST_SET_RANK, RankFault, Visitor, deliver_sets};

/// Delivers the closed subsets of a configuration in the order of their bit numbers, in which colour
/// c counts 2 to the power c, while there is room. Each entry is a set, its colours rising.
pub fn closed(alloc: Global, k: &Constants, visitor: &mut dyn Visitor) -> Result<(), RankFault>
    requires empty { met visitor.old ≡ [] }
    requires room { 1 ≤ room visitor.old }
    ensures cut { OnOk result (IsCut (ClosedSets k.now) (room visitor.old) (met visitor.new)) }
    ensures front { IsFront (ClosedSets k.now) (met visitor.new) }
    ensures room { room visitor.new ≡ room visitor.old }
    ensures above { MOST_SET_RANK < rank_of k.now → IsErrOf result (RankFault.RankAbove (rank_of k.now)) }
    ensures rank_above { (rank : ℕ) → IsErrOf result (RankFault.RankAbove rank) → (rank ≡ rank_of k.now) × (MOST_SET_RANK < rank) }
    ensures unchanged { (rank : ℕ) → IsErrOf result (RankFault.RankAbove rank) → met visitor.new ≡ [] }
{
    let rank = k.rank();
    if rank > MOST_SET_RANK {
        return Err(RankFault::RankAbove { rank });
    }
    let masks = closed_masks(alloc, k)?;
    deliver_sets(alloc, rank, &masks, visitor)?;
    Ok(())
}

// The masks of all closed sets, rising.
fn closed_masks(alloc: Global, k: &Constants) -> Result<Vec<u32>, NoMemory>
    requires { rank_of k.now ≤ MOST_SET_RANK }
    ensures { IfOk result (λ masks. AreClosedMasks k.now masks.items) }
{
    let table = products_of(alloc, k)?;
    let end = power(k.rank());
    let mut masks = Vec::new(alloc);
    for mask in 0..end {
        if is_closed(k, &table, mask) {
            masks.push(mask)?;
        }
    }
    Ok(masks)
}

// A power of 2.
fn power(rank: u32) -> u32
    requires { rank ≤ MOST_SET_RANK }
    ensures { result ≡ 2 ^ rank }
{
    1 << rank
}
