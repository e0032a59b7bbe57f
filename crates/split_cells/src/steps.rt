//! Steps with inner numbers, made on the pairs in classes.

ghost use Rattle.std.specs.Prelude.{◌≡◌, ◌<◌, ◌↔◌, IsTrue, length};
ghost use Rattle.trace_text.specs.Split.{HasParts, split_of};
ghost use Rattle.trace_text.specs.Versions.{HasStep};
ghost use Rattle.split_cells.specs.Keys.{IsBlank};
ghost use Rattle.split_cells.specs.Faults.{NamesBelow};
ghost use Rattle.split_cells.specs.Labels.{step_shown_by};
ghost use Rattle.split_cells.specs.Kept.{IsShown, shown_of};

use crate::classed_pairs::ClassedPairs;
use crate::flipping::flip;
use crate::gathering::gather_diagonal;
use crate::labels::Labels;
use crate::splitting::part;
use crate::tallies::Tally;
use crate::triangle_counts::{Triangle, count_triangles};
use trace_text::Step;

// Makes a step on one class, and says whether its class had two parts. The counts are left behind.
pub(crate) fn make_step(
    pairs: &mut ClassedPairs,
    labels: &mut Labels,
    tally: &mut Tally,
    step: Step,
) -> bool
    requires shown { IsShown pairs.old labels.old }
    requires one_class { HasStep 1 step }
    requires names { NamesBelow pairs.old.parting.rank step }
    requires blank { IsBlank pairs.old.parting.class.items tally.old.counts }
    ensures shown { IsShown pairs.new labels.new }
    ensures size { pairs.new.size ≡ pairs.old.size }
    ensures len { length tally.new.counts ≡ length tally.old.counts }
    ensures parts { shown_of pairs.new labels.new ≡ split_of (shown_of pairs.old labels.old) (step_shown_by labels.old.outer.items step) }
    ensures split { IsTrue result ↔ HasParts (shown_of pairs.old labels.old) (step_shown_by labels.old.outer.items step) }
{
    match step {
        Step::Diag { class } => {
            gather_diagonal(pairs, tally, class);
            part(pairs, tally, class)
        }
        Step::Flip { class, other } => flip(pairs, labels, tally, class, other),
        Step::Tri { class, left, right } => {
            count_triangles(pairs, tally, Triangle { class, left, right });
            part(pairs, tally, class)
        }
        Step::Round => unreachable!(),
    }
}
