//! Fusions: whether merging colours gives a coherent configuration, and the closure on colours.

ghost use Rattle.std.specs.Prelude.{◌≡◌, ◌≢◌, ◌↔◌, IsTrue, IfOk, IfSome, IfNone};
ghost use Rattle.pair_colours.specs.Closure.{Coherent, IsClosure, IsClosureOf};
ghost use Rattle.pair_colours.specs.Naming.{rank_of};
ghost use Rattle.struct_consts.specs.ClassData.{IsConfiguration};
ghost use Rattle.colour_wl.specs.Fusions.{merge};
ghost use Rattle.colour_wl.specs.GrowthStrings.{IsGrowth};
ghost use Rattle.colour_wl.specs.Rounds.{IsForcedRound};

use crate::exact::exact_round;
use crate::hashing::hashed_round;
use pair_colours::{NoMemory, Numbers};
use std::alloc::Global;
use struct_consts::Constants;

// A growth string that parts classes of a block of this one, all of which each coherent refinement
// parts too; none where the merged colouring is coherent. Classes are parted by hashing, and only
// where that parts none, exactly.
fn round(alloc: Global, k: &Constants, a: &[u32]) -> Result<Option<Vec<u32>>, NoMemory>
    requires { IsGrowth (rank_of k.now) a.now }
    ensures growth { IfOk result (λ next. IfSome next (λ finer. IsGrowth (rank_of k.now) finer.items)) }
    ensures forced { IfOk result (λ next. IfSome next (λ finer. IsForcedRound (merge k.now a.now) (merge k.now finer.items))) }
    ensures finer { IfOk result (λ next. IfSome next (λ finer. finer.items ≢ a.now)) }
    ensures coherent { IfOk result (λ next. IfNone next (Coherent (merge k.now a.now))) }
    ensures within { IfOk result (λ _. IsConfiguration k.now) }
{
    let hashed = hashed_round(alloc, k, a)?;
    if hashed.as_slice() == a {
        let exact = exact_round(alloc, k, a)?;
        if exact.as_slice() == a {
            return Ok(None);
        }
        return Ok(Some(exact));
    }
    Ok(Some(hashed))
}

/// Whether merging the colours of a configuration by a growth string gives a coherent colouring.
pub fn is_fusion(alloc: Global, k: &Constants, a: &[u32]) -> Result<bool, NoMemory>
    requires { IsGrowth (rank_of k.now) a.now }
    ensures { IfOk result (λ answer. IsTrue answer ↔ Coherent (merge k.now a.now)) }
{
    let next = round(alloc, k, a)?;
    Ok(next.is_none())
}

// The coarsest growth string that refines this one and whose merged colouring is coherent.
fn stable(alloc: Global, k: &Constants, a: &[u32]) -> Result<Vec<u32>, NoMemory>
    requires configuration { IsConfiguration k.now }
    requires string { IsGrowth (rank_of k.now) a.now }
    ensures growth { IfOk result (λ b. IsGrowth (rank_of k.now) b.items) }
    ensures closure { IfOk result (λ b. IsClosure (merge k.now b.items) (merge k.now a.now)) }
{
    let mut current = Vec::from_slice(alloc, a)?;
    loop {
        match round(alloc, k, &current)? {
            Some(finer) => current = finer,
            None => return Ok(current),
        }
    }
}

/// The closure on colours: the growth string by which the colours are merged to the closure of the
/// colouring that the given string merges them to.
pub fn close_colours(alloc: Global, k: &Constants, a: &[u32]) -> Result<Numbers, NoMemory>
    requires { IsGrowth (rank_of k.now) a.now }
    ensures growth { IfOk result (λ b. IsGrowth (rank_of k.now) b) }
    ensures closure { IfOk result (λ b. IsClosureOf (merge k.now b) (merge k.now a.now)) }
{
    let rank = k.rank();
    let closed = stable(alloc, k, a)?;
    let mut numbers = Numbers::new(alloc);
    for i in 0..rank {
        numbers.push(closed[i as usize])?;
    }
    Ok(numbers)
}
