//! The list of fusions.

ghost use Rattle.std.specs.Prelude.{◌≡◌, ◌≤◌, ◌<◌, ℕ, [], true, false, OnOk, IfOk, IsErrOf};
ghost use Rattle.pair_colours.specs.Naming.{rank_of};
ghost use Rattle.visitors.specs.Lists.{IsFront, IsCut};
ghost use Rattle.visitors.specs.declared.visitor.TheConstants.{MOST_SET_RANK};
ghost use Rattle.good_subsets.specs.GoodSets.{AreGoodNumbers};
ghost use Rattle.mergings.specs.Mergings.{IsMergings, IsNoGrowth, IsGrowthOrNone};

use crate::faults::MergeFault;
use crate::goods::by_least;
use crate::pieces::deliver_list;
use colour_wl::is_growth;
use good_subsets::{constants_table, good_numbers};
use pair_colours::{NoMemory, Numbers};
use std::alloc::Global;
use struct_consts::Constants;
use visitors::{MOST_SET_RANK, Visitor};

/// Delivers the fusions of a configuration in lexicographic order, all of them or those that come
/// after a growth string, while there is room. The string need not be a fusion. Each entry is the
/// growth string of a fusion.
pub fn mergings(
    alloc: Global,
    k: &Constants,
    after: Option<&[u32]>,
    visitor: &mut dyn Visitor,
) -> Result<(), MergeFault>
    requires empty { met visitor.old ≡ [] }
    requires room { 1 ≤ room visitor.old }
    ensures cut { OnOk result (IsCut (IsMergings k.now after.entry) (room visitor.old) (met visitor.new)) }
    ensures front { IsFront (IsMergings k.now after.entry) (met visitor.new) }
    ensures room { room visitor.new ≡ room visitor.old }
    ensures above { MOST_SET_RANK < rank_of k.now → IsErrOf result (MergeFault.RankAbove (rank_of k.now)) }
    ensures rank_above { (rank : ℕ) → IsErrOf result (MergeFault.RankAbove rank) → (rank ≡ rank_of k.now) × (MOST_SET_RANK < rank) }
    ensures no_growth { rank_of k.now ≤ MOST_SET_RANK → IsNoGrowth (rank_of k.now) after.entry → IsErrOf result MergeFault.NotGrowth }
    ensures not_growth { IsErrOf result MergeFault.NotGrowth → IsNoGrowth (rank_of k.now) after.entry }
    ensures unchanged_above { (rank : ℕ) → IsErrOf result (MergeFault.RankAbove rank) → met visitor.new ≡ [] }
    ensures unchanged_growth { IsErrOf result MergeFault.NotGrowth → met visitor.new ≡ [] }
{
    let rank = k.rank();
    if rank > MOST_SET_RANK {
        return Err(MergeFault::RankAbove { rank });
    }
    if !may_follow(after, rank) {
        return Err(MergeFault::NotGrowth);
    }
    search_list(alloc, k, after, visitor)?;
    Ok(())
}

// Whether a list may begin after the string, if one is given.
fn may_follow(after: Option<&[u32]>, rank: u32) -> bool
    ensures yes { result ≡ true → IsGrowthOrNone rank after.entry }
    ensures no { result ≡ false → IsNoGrowth rank after.entry }
{
    match after {
        None => true,
        Some(string) => is_growth(string, rank),
    }
}

// The masks of the good sets.
fn good_masks(alloc: Global, k: &Constants) -> Result<Numbers, NoMemory>
    requires { rank_of k.now ≤ MOST_SET_RANK }
    ensures { IfOk result (λ masks. AreGoodNumbers k.now masks) }
{
    match good_numbers(alloc, k) {
        Ok(masks) => Ok(masks),
        Err(_fault) => Err(NoMemory),
    }
}

// Delivers the list, found by a search with good sets.
fn search_list(
    alloc: Global,
    k: &Constants,
    after: Option<&[u32]>,
    visitor: &mut dyn Visitor,
) -> Result<(), NoMemory>
    requires small { rank_of k.now ≤ MOST_SET_RANK }
    requires after { IsGrowthOrNone (rank_of k.now) after }
    requires empty { met visitor.old ≡ [] }
    requires room { 1 ≤ room visitor.old }
    ensures cut { OnOk result (IsCut (IsMergings k.now after.entry) (room visitor.old) (met visitor.new)) }
    ensures front { IsFront (IsMergings k.now after.entry) (met visitor.new) }
    ensures room { room visitor.new ≡ room visitor.old }
{
    let masks = good_masks(alloc, k)?;
    let goods = by_least(alloc, k, masks.as_slice())?;
    let table = constants_table(alloc, k)?;
    deliver_list(alloc, k, &table, &goods, after, visitor)?;
    Ok(())
}
