//! Chains of rounds of refinement.

ghost use Rattle.std.specs.Prelude.{◌≡◌, ◌↔◌, All, None, IfOk, IsTrue};
ghost use Rattle.pair_colours.specs.Colouring.{FitsColouring, IsColouring, IsSamePartition};
ghost use Rattle.pair_colours.specs.Naming.{named_of};
ghost use Rattle.trace_text.specs.Split.{partition_after};
ghost use Rattle.trace_text.specs.RoundChains.{AreFollowing, AreRounds, IsRoundChain};

use pair_colours::{Colouring, NoMemory};
use std::alloc::Global;
use trace_text::{Chain, Stage, Step, Steps, start_of};
use wl_round::round_of;

// The rounds from a partition on, and the last partition, canonically named.
#[derive(Drop)]
struct RoundsMade {
    steps: Steps,
    last: Colouring,
}

// Whether two colourings have the same list of colours.
fn have_same_colours(one: &Colouring, other: &Colouring) -> bool
    ensures same { IsTrue result ↔ (one.now.colours ≡ other.now.colours) }
    ensures within { FitsColouring other.now }
{
    one.colours() == other.colours()
}

// As many rounds from a named partition on as are not idle.
fn rounds_from(alloc: Global, start: Colouring) -> Result<RoundsMade, NoMemory>
    requires colouring { IsColouring start }
    requires named { named_of start ≡ start }
    ensures rounds { IfOk result (λ rounds. AreRounds rounds.steps start) }
    ensures last { IfOk result (λ rounds. IsSamePartition rounds.last (partition_after start rounds.steps)) }
    ensures colouring { IfOk result (λ rounds. IsColouring rounds.last) }
    ensures named { IfOk result (λ rounds. named_of rounds.last ≡ rounds.last) }
{
    let mut last = start;
    let mut steps = Steps::new(alloc);
    loop {
        let round = round_of(alloc, &last)?;
        let same = have_same_colours(&round, &last);
        if same {
            return Ok(RoundsMade { steps, last });
        }
        steps.push(Step::Round)?;
        last = round;
    }
}

/// The chain of rounds over the colours of a chain: the chain with the same colours, in which each
/// stage has the step `R` as often as it is not idle, and no other step. The steps of the given chain
/// are not looked at.
pub fn rounds(alloc: Global, stages: &[Stage]) -> Result<Chain, NoMemory>
    requires colourings { All (λ stage. IsColouring stage.colours) stages.now }
    requires following { AreFollowing None stages.now }
    ensures { IfOk result (λ chain. IsRoundChain stages.now chain) }
{
    let mut chain = Chain::new(alloc);
    let mut last = None;
    for stage in stages {
        let start = start_of(alloc, last.as_ref(), &stage.colours)?;
        let rounds = rounds_from(alloc, start)?;
        let colours = stage.colours.copy(alloc)?;
        chain.push(Stage {
            colours,
            steps: rounds.steps,
        })?;
        last = Some(rounds.last);
    }
    Ok(chain)
}
