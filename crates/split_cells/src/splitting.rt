//! The parts of a class, by the keys of its pairs.

ghost use Rattle.std.specs.Prelude.{◌≡◌, ◌≢◌, ◌==◌, ◌&&◌, nat_lt, ℕ, ◌+◌, ◌*◌, ◌^◌, ◌<◌, ◌≤◌, ◌↔◌, IsTrue, IfSome, IfNone, length, slice_index, if◌then◌else◌};
ghost use Rattle.split_cells.specs.Segments.{IsParting, StandsBehind, bound_of, class_at};
ghost use Rattle.split_cells.specs.Grids.{HasMember, IsUsed};
ghost use Rattle.split_cells.specs.Pairs.{IsClassed};
ghost use Rattle.split_cells.specs.Keys.{IsLeastKey, IsNext, counts_in, nearer_of};
ghost use Rattle.split_cells.specs.Parts.{IsParted};

use crate::classed_pairs::ClassedPairs;
use crate::partings::Parting;
use crate::tallies::Tally;

// The least key of class k.
fn least_key(parting: &Parting, tally: &Tally, k: u32) -> u32
    requires parting { IsParting parting.now }
    requires class { k < parting.now.rank }
    requires member { HasMember parting.now.class.items k }
    requires counts { length tally.now.counts ≡ bound_of parting.now }
    ensures { IsLeastKey parting.now.class.items tally.now.counts k result }
{
    let members = parting.members(k);
    let mut least = tally.get(members[0]);
    for p in members {
        let key = tally.get(*p);
        if key == 0 {
            return 0;
        }
        least = least.min(key);
    }
    least
}

// The least key above one, of the one found so far and another.
fn nearer(above: Option<u32>, key: u32, other: u32) -> Option<u32>
    ensures { result ≡ nearer_of above key other }
{
    match above {
        None => { if key < other { Some(other) } else { None } }
        Some(least) => {
            if key < other && other < least {
                Some(other)
            } else {
                Some(least)
            }
        }
    }
}

// The least key above one.
fn key_above(tally: &Tally, key: u32) -> Option<u32>
    ensures next { IfSome result (λ next. IsNext tally.now.counts key next) }
    ensures none { IfNone result ((p : ℕ) → slice_index tally.now.counts p ≤ key) }
{
    let mut above: Option<u32> = None;
    for a in 0..tally.touched() {
        above = nearer(above, key, tally.get(tally.member(a)));
    }
    above
}

// Moves the pairs with this key from class k to class `new`.
fn move_part(pairs: &mut ClassedPairs, tally: &Tally, k: u32, new: u32, key: u32)
    requires classed { IsClassed pairs.old }
    requires counts { length tally.now.counts ≡ bound_of pairs.old.parting }
    requires counted { 0 < key }
    requires class { (p : ℕ) → p < bound_of pairs.old.parting → slice_index tally.now.counts p ≡ key → class_at pairs.old.parting p ≡ k }
    requires other { k ≢ new }
    requires named { new < pairs.old.parting.rank }
    requires behind { StandsBehind pairs.old.parting k new }
    ensures classed { IsClassed pairs.new }
    ensures size { pairs.new.size ≡ pairs.old.size }
    ensures rank { pairs.new.parting.rank ≡ pairs.old.parting.rank }
    ensures moved { (p : ℕ) → p < bound_of pairs.old.parting → slice_index tally.now.counts p ≡ key → class_at pairs.new.parting p ≡ new }
    ensures stayed { (p : ℕ) → p < bound_of pairs.old.parting → slice_index tally.now.counts p ≢ key → class_at pairs.new.parting p ≡ class_at pairs.old.parting p }
{
    for a in 0..tally.touched() {
        let p = tally.member(a);
        if tally.get(p) == key {
            pairs.take_out(p, k, new);
        }
    }
}

// Splits class k by the keys of its pairs, and says whether there were two.
pub(crate) fn part(pairs: &mut ClassedPairs, tally: &Tally, k: u32) -> bool
    requires classed { IsClassed pairs.old }
    requires used { IsUsed pairs.old.parting.class.items pairs.old.parting.rank }
    requires class { k < pairs.old.parting.rank }
    requires counts { length tally.now.counts ≡ bound_of pairs.old.parting }
    requires outside { (p : ℕ) → p < bound_of pairs.old.parting → class_at pairs.old.parting p ≢ k → slice_index tally.now.counts p ≡ 0 }
    ensures classed { IsClassed pairs.new }
    ensures size { pairs.new.size ≡ pairs.old.size }
    ensures used { IsUsed pairs.new.parting.class.items pairs.new.parting.rank }
    ensures rank { pairs.old.parting.rank ≤ pairs.new.parting.rank }
    ensures split { IsTrue result ↔ (2 ≤ length (counts_in pairs.old.size pairs.old.parting.class.items tally.now.counts k)) }
    ensures parts { IsParted pairs.old.size pairs.old.parting.class.items tally.now.counts k pairs.old.parting.rank pairs.new.parting.class.items }
{
    let mut key = least_key(&pairs.parting, tally, k);
    let mut split = false;
    while let Some(next) = key_above(tally, key) {
        let new = pairs.parting.open(k);
        move_part(pairs, tally, k, new, next);
        key = next;
        split = true;
    }
    split
}
