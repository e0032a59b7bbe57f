//! The numbers of the classes after a round, in which each class keeps its number with its first pair.

ghost use Rattle.std.specs.Prelude.{◌≡◌, ℕ, ◌+◌, ◌*◌, ◌<◌, length, IfOk, OnOk};
ghost use Rattle.pair_colours.specs.Colouring.{colour_at};
ghost use Rattle.pair_colours.specs.Naming.{named_of, rank_of};
ghost use Rattle.pair_colours.specs.Rounds.{IsRound};
ghost use Rattle.trace_text.specs.declared.step_list.Step.TheVariants.{Round};
ghost use Rattle.trace_text.specs.Partition.{IsPartition};
ghost use Rattle.trace_text.specs.Split.{split_of};
ghost use Rattle.split_cells.specs.PartNumbers.{IsShownTo, IsShown, IsRowShown};

use pair_colours::{Colouring, NoMemory, pair_on_walk};
use std::alloc::Global;

// The numbers of the parts that the naming walk has met, the classes of those parts, and the next
// new number.
#[derive(Drop)]
struct PartNumbers {
    numbers: Vec<u32>,
    seen: Vec<bool>,
    fresh: u32,
}

impl PartNumbers {
    // Gives the part of the pair at a place of the walk its number, if that is its first pair: the
    // first part of a class that is met keeps the number of the class.
    fn show(&mut self, partition: &Colouring, round: &Colouring, place: u32) -> Result<(), NoMemory>
        requires partition { IsPartition partition.now }
        requires round { IsRound partition.now round.now }
        requires named { named_of round.now ≡ round.now }
        requires place { place < partition.now.size * partition.now.size }
        requires shown { IsShownTo partition.now round.now self.old.numbers.items self.old.seen.items self.old.fresh place }
        ensures { OnOk result (IsShownTo partition.now round.now self.new.numbers.items self.new.seen.items self.new.fresh (place + 1)) }
    {
        let (x, y) = pair_on_walk(partition.size(), place);
        if round.get(x, y) as usize != self.numbers.len() {
            return Ok(());
        }
        let class = partition.get(x, y);
        if self.seen[class as usize] {
            self.numbers.push(self.fresh)?;
            self.fresh += 1;
            return Ok(());
        }
        self.numbers.push(class)?;
        self.seen[class as usize] = true;
        Ok(())
    }
}

// The numbers of the parts, by their colours in the round.
fn part_numbers(
    alloc: Global,
    partition: &Colouring,
    rank: u32,
    round: &Colouring,
) -> Result<Vec<u32>, NoMemory>
    requires partition { IsPartition partition.now }
    requires rank { rank ≡ rank_of partition.now }
    requires round { IsRound partition.now round.now }
    requires named { named_of round.now ≡ round.now }
    ensures { IfOk result (λ numbers. IsShown partition.now round.now numbers.items) }
{
    let mut parts = PartNumbers {
        numbers: Vec::new(alloc),
        seen: vec![in alloc; false; rank as usize]?,
        fresh: rank,
    };
    for place in 0..partition.size() * partition.size() {
        parts.show(partition, round, place)?;
    }
    Ok(parts.numbers)
}

// Gives the pairs from x the numbers of their colours in the round.
fn show_row(parted: &mut Colouring, round: &Colouring, numbers: &[u32], x: u32)
    requires sizes { parted.old.size ≡ round.now.size }
    requires row { x < round.now.size }
    requires inside { (y : ℕ) → y < round.now.size → colour_at round.now x y < length numbers.now }
    ensures { IsRowShown round.now numbers.now x parted.old parted.new }
{
    for y in 0..round.size() {
        parted.set(x, y, numbers[round.get(x, y) as usize]);
    }
}

// The split of a partition by the step `R`, from the named classes of the pairs that are alike: along
// the naming walk, the first part that is met of a class keeps its number, and the others get the
// next numbers from the rank on.
pub(crate) fn renumbered(
    alloc: Global,
    partition: &Colouring,
    rank: u32,
    round: &Colouring,
) -> Result<Colouring, NoMemory>
    requires partition { IsPartition partition.now }
    requires rank { rank ≡ rank_of partition.now }
    requires round { IsRound partition.now round.now }
    requires named { named_of round.now ≡ round.now }
    ensures { IfOk result (λ parted. parted ≡ split_of partition.now Round) }
{
    let numbers = part_numbers(alloc, partition, rank, round)?;
    let mut parted = Colouring::new(alloc, partition.size(), 0)?;
    for x in 0..partition.size() {
        show_row(&mut parted, round, &numbers, x);
    }
    Ok(parted)
}
