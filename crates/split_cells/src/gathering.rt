//! The key of each pair of a class, by which a step splits it.

ghost use Rattle.std.specs.Prelude.{◌≡◌, ◌==◌, ◌*◌, ◌/◌, ◌%◌, ◌<◌, if◌then◌else◌};
ghost use Rattle.trace_text.specs.declared.step_list.Step.TheVariants.{Diag, Flip};
ghost use Rattle.split_cells.specs.Pairs.{IsClassed, partition_of};
ghost use Rattle.split_cells.specs.Keys.{IsBlank, IsGathered, key_at};

use crate::classed_pairs::ClassedPairs;
use crate::sizes::Size;
use crate::tallies::Tally;

// Key 1 for the pairs off the diagonal.
pub(crate) fn diagonal_key(size: &Size, p: u32) -> u32
    requires { p < size.now * size.now }
    ensures { result ≡ (if p / size.now == p % size.now then 0 else 1) }
{
    if size.first(p) == size.second(p) {
        0
    } else {
        1
    }
}

// Key 1 for the pairs of class k off the diagonal.
pub(crate) fn gather_diagonal(pairs: &ClassedPairs, tally: &mut Tally, k: u32)
    requires classed { IsClassed pairs.now }
    requires class { k < pairs.now.parting.rank }
    requires blank { IsBlank pairs.now.parting.class.items tally.old.counts }
    ensures { IsGathered pairs.now.parting.class.items k (key_at (partition_of pairs.now) (Diag k)) tally.new.counts }
{
    for p in pairs.parting.members(k) {
        tally.note(*p, diagonal_key(&pairs.size, *p));
    }
}

// Key 1 for another class.
fn turned_key(class: u32, other: u32) -> u32
    ensures { result ≡ (if class == other then 0 else 1) }
{
    if class == other { 0 } else { 1 }
}

// Key 1 for the pairs of class k whose transposed pair is not in class `other`.
pub(crate) fn gather_turned(pairs: &ClassedPairs, tally: &mut Tally, k: u32, other: u32)
    requires classed { IsClassed pairs.now }
    requires class { k < pairs.now.parting.rank }
    requires blank { IsBlank pairs.now.parting.class.items tally.old.counts }
    ensures { IsGathered pairs.now.parting.class.items k (key_at (partition_of pairs.now) (Flip k other)) tally.new.counts }
{
    for p in pairs.parting.members(k) {
        tally.note(*p, turned_key(pairs.turned[*p as usize], other));
    }
}
