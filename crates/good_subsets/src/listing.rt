//! The list of the good sets.

ghost use Rattle.std.specs.Prelude.{◌≡◌, ◌↔◌, ◌≤◌, ◌<◌, ◌^◌, ℕ, [], IsTrue, OnOk, IfOk, IsErrOf};
ghost use Rattle.pair_colours.specs.Naming.{rank_of};
ghost use Rattle.visitors.specs.Lists.{IsFront, IsCut};
ghost use Rattle.visitors.specs.Masks.{members_of};
ghost use Rattle.visitors.specs.declared.visitor.TheConstants.{MOST_SET_RANK};
ghost use Rattle.good_subsets.specs.Diagonals.{IsDiagonalMask};
ghost use Rattle.good_subsets.specs.GoodSets.{IsGood, IsGoodSets, AreGoodNumbers};
ghost use Rattle.good_subsets.specs.Products.{IsTable};

use crate::goodness::is_good;
use crate::necessary::{diagonal_mask, may_be_good};
use crate::table::{constants_table, square_is_constant};
use pair_colours::{NoMemory, Numbers};
use std::alloc::Global;
use struct_consts::Constants;
use visitors::{MOST_SET_RANK, RankFault, Visitor, deliver_sets, has_colour};

/// Delivers the good sets of colours of a configuration in the order of their bit numbers, in which
/// colour c counts 2 to the power c, while there is room. Each entry is a set, its colours rising.
pub fn good(alloc: Global, k: &Constants, visitor: &mut dyn Visitor) -> Result<(), RankFault>
    requires empty { met visitor.old ≡ [] }
    requires room { 1 ≤ room visitor.old }
    ensures cut { OnOk result (IsCut (IsGoodSets k.now) (room visitor.old) (met visitor.new)) }
    ensures front { IsFront (IsGoodSets k.now) (met visitor.new) }
    ensures room { room visitor.new ≡ room visitor.old }
    ensures above { MOST_SET_RANK < rank_of k.now → IsErrOf result (RankFault.RankAbove (rank_of k.now)) }
    ensures rank_above { (rank : ℕ) → IsErrOf result (RankFault.RankAbove rank) → (rank ≡ rank_of k.now) × (MOST_SET_RANK < rank) }
    ensures unchanged { (rank : ℕ) → IsErrOf result (RankFault.RankAbove rank) → met visitor.new ≡ [] }
{
    let rank = k.rank();
    if rank > MOST_SET_RANK {
        return Err(RankFault::RankAbove { rank });
    }
    let numbers = good_masks(alloc, k)?;
    deliver_sets(alloc, rank, numbers.as_slice(), visitor)?;
    Ok(())
}

/// The bit numbers of the good sets of colours of a configuration, rising. As a mask each has the
/// colours of its set.
pub fn good_numbers(alloc: Global, k: &Constants) -> Result<Numbers, RankFault>
    ensures numbers { IfOk result (λ numbers. AreGoodNumbers k.now numbers) }
    ensures small { OnOk result (rank_of k.now ≤ MOST_SET_RANK) }
    ensures above { MOST_SET_RANK < rank_of k.now → IsErrOf result (RankFault.RankAbove (rank_of k.now)) }
    ensures rank_above { (rank : ℕ) → IsErrOf result (RankFault.RankAbove rank) → (rank ≡ rank_of k.now) × (MOST_SET_RANK < rank) }
{
    let rank = k.rank();
    if rank > MOST_SET_RANK {
        return Err(RankFault::RankAbove { rank });
    }
    let numbers = good_masks(alloc, k)?;
    Ok(numbers)
}

// The masks of all good sets, rising.
fn good_masks(alloc: Global, k: &Constants) -> Result<Numbers, NoMemory>
    requires { rank_of k.now ≤ MOST_SET_RANK }
    ensures { IfOk result (λ masks. AreGoodNumbers k.now masks) }
{
    let end = power(k.rank());
    let table = constants_table(alloc, k)?;
    let diagonal = diagonal_mask(k);
    let mut set = Vec::with_capacity(alloc, 16)?;
    let mut masks = Numbers::new(alloc);
    for mask in 0..end {
        if is_good_mask(alloc, k, &table, diagonal, mask, &mut set)? {
            masks.push(mask)?;
        }
    }
    Ok(masks)
}

// Whether the set of a mask is good.
fn is_good_mask(
    alloc: Global,
    k: &Constants,
    table: &[u32],
    diagonal: u32,
    mask: u32,
    set: &mut Vec<u32>,
) -> Result<bool, NoMemory>
    requires small { rank_of k.now ≤ MOST_SET_RANK }
    requires table { IsTable k.now table.now }
    requires diagonal { IsDiagonalMask k.now diagonal }
    requires low { mask < 2 ^ rank_of k.now }
    ensures { IfOk result (λ answer. IsTrue answer ↔ IsGood k.now (members_of (rank_of k.now) mask)) }
{
    if !may_be_good(k, diagonal, mask) {
        return Ok(false);
    }
    list_colours(k.rank(), mask, set)?;
    if !square_is_constant(k, table, set) {
        return Ok(false);
    }
    is_good(alloc, k, set)
}

/// Makes a list that of the colours of the set of a mask, rising.
pub fn list_colours(rank: u32, mask: u32, set: &mut Vec<u32>) -> Result<(), NoMemory>
    requires { rank ≤ MOST_SET_RANK }
    ensures { OnOk result (set.new.items ≡ members_of rank mask) }
{
    set.clear();
    for colour in 0..rank {
        if has_colour(mask, colour) {
            set.push(colour)?;
        }
    }
    Ok(())
}

// A power of 2.
fn power(rank: u32) -> u32
    requires { rank ≤ MOST_SET_RANK }
    ensures { result ≡ 2 ^ rank }
{
    1 << rank
}
