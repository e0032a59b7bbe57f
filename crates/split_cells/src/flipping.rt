//! A class parted by the class of the transposed pairs, so that the smaller part moves.

ghost use Rattle.std.specs.Prelude.{◌≡◌, ◌==◌, ℕ, ◌+◌, ◌*◌, ◌<◌, ◌≤◌, ◌↔◌, IsTrue, length, if◌then◌else◌};
ghost use Rattle.trace_text.specs.declared.step_list.Step.TheVariants.{Flip};
ghost use Rattle.trace_text.specs.Split.{HasParts, split_of};
ghost use Rattle.split_cells.specs.Pairs.{IsClassed};
ghost use Rattle.split_cells.specs.Keys.{IsBlank, IsGathered};
ghost use Rattle.split_cells.specs.Labels.{step_shown_by};
ghost use Rattle.split_cells.specs.Kept.{IsShown, shown_of};
ghost use Rattle.split_cells.specs.Marks.{mark_at};

use crate::classed_pairs::ClassedPairs;
use crate::gathering::gather_turned;
use crate::labels::Labels;
use crate::splitting::part;
use crate::tallies::Tally;

// Mark 1 for this class.
fn mark(class: u32, other: u32) -> u32
    ensures { result ≡ (if class == other then 1 else 0) }
{
    if class == other { 1 } else { 0 }
}

// Marks the pairs of class k whose transposed pair is in class `other`, over the pairs of k.
fn mark_over_class(pairs: &ClassedPairs, tally: &mut Tally, k: u32, other: u32)
    requires classed { IsClassed pairs.now }
    requires class { k < pairs.now.parting.rank }
    requires blank { IsBlank pairs.now.parting.class.items tally.old.counts }
    ensures { IsGathered pairs.now.parting.class.items k (mark_at pairs.now other) tally.new.counts }
{
    for p in pairs.parting.members(k) {
        tally.note(*p, mark(pairs.turned[*p as usize], other));
    }
}

// Marks the same pairs, over those of the other class.
fn mark_over_other(pairs: &ClassedPairs, tally: &mut Tally, k: u32, other: u32)
    requires classed { IsClassed pairs.now }
    requires class { k < pairs.now.parting.rank }
    requires other { other < pairs.now.parting.rank }
    requires blank { IsBlank pairs.now.parting.class.items tally.old.counts }
    ensures { IsGathered pairs.now.parting.class.items k (mark_at pairs.now other) tally.new.counts }
{
    for q in pairs.parting.members(other) {
        let p = pairs.size.turned(*q);
        tally.note(p, mark(pairs.parting.class[p as usize], k));
    }
}

// Marks them over the class that has fewer pairs.
fn mark_turned(pairs: &ClassedPairs, tally: &mut Tally, k: u32, other: u32)
    requires classed { IsClassed pairs.now }
    requires class { k < pairs.now.parting.rank }
    requires other { other < pairs.now.parting.rank }
    requires blank { IsBlank pairs.now.parting.class.items tally.old.counts }
    ensures { IsGathered pairs.now.parting.class.items k (mark_at pairs.now other) tally.new.counts }
{
    if pairs.parting.len[other as usize] < pairs.parting.len[k as usize] {
        mark_over_other(pairs, tally, k, other);
    } else {
        mark_over_class(pairs, tally, k, other);
    }
}

// Moves the marked pairs of class k, and exchanges the numbers of the parts.
fn part_marked(
    pairs: &mut ClassedPairs,
    labels: &mut Labels,
    tally: &Tally,
    k: u32,
    other: u32,
) -> bool
    requires shown { IsShown pairs.old labels.old }
    requires class { k < pairs.old.parting.rank }
    requires other { other < pairs.old.parting.rank }
    requires marked { IsGathered pairs.old.parting.class.items k (mark_at pairs.old other) tally.now.counts }
    ensures shown { IsShown pairs.new labels.new }
    ensures size { pairs.new.size ≡ pairs.old.size }
    ensures parts { shown_of pairs.new labels.new ≡ split_of (shown_of pairs.old labels.old) (step_shown_by labels.old.outer.items (Flip k other)) }
    ensures split { IsTrue result ↔ HasParts (shown_of pairs.old labels.old) (step_shown_by labels.old.outer.items (Flip k other)) }
{
    let new = pairs.parting.rank;
    if !part(pairs, tally, k) {
        return false;
    }
    labels.exchange(k, new);
    true
}

// Parts class k by whether the transposed pair is in class `other`. The smaller part moves.
pub(crate) fn flip(
    pairs: &mut ClassedPairs,
    labels: &mut Labels,
    tally: &mut Tally,
    k: u32,
    other: u32,
) -> bool
    requires shown { IsShown pairs.old labels.old }
    requires class { k < pairs.old.parting.rank }
    requires other { other < pairs.old.parting.rank }
    requires blank { IsBlank pairs.old.parting.class.items tally.old.counts }
    ensures shown { IsShown pairs.new labels.new }
    ensures size { pairs.new.size ≡ pairs.old.size }
    ensures len { length tally.new.counts ≡ length tally.old.counts }
    ensures parts { shown_of pairs.new labels.new ≡ split_of (shown_of pairs.old labels.old) (step_shown_by labels.old.outer.items (Flip k other)) }
    ensures split { IsTrue result ↔ HasParts (shown_of pairs.old labels.old) (step_shown_by labels.old.outer.items (Flip k other)) }
{
    mark_turned(pairs, tally, k, other);
    if tally.touched() <= pairs.parting.len[k as usize] / 2 {
        return part_marked(pairs, labels, tally, k, other);
    }
    tally.clear();
    gather_turned(pairs, tally, k, other);
    part(pairs, tally, k)
}
