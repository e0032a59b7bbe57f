//! The answer of `ring`.

ghost use Rattle.std.specs.Prelude.{◌≡◌, ◌<◌, ◌^◌, IfOk, length};
ghost use Rattle.colour_wl.specs.GrowthStrings.{IsGrowth, next_number};
ghost use Rattle.neighbour_answers.specs.RingAnswer.{AnswersOverGroup, AnswersRing, ring_text_of};

use pair_colours::{Colouring, NoMemory};
use report_text::refused_text;
use schur_rings::{Group, GroupFault, RingFault, ring};
use std::alloc::Global;
use text_lines::Text;

/// The answer for a multiplication table and a list of colours, a colour for each element:
/// `ring points N rank R` and a line with the number of each element in the closure of the list on
/// the elements (Schur, 1933); or the first of `refused NotGroup`, `refused ColourCount` and
/// `refused ColourRange` that applies.
pub fn ring_answer(alloc: Global, table: &Colouring, colours: &[u32]) -> Result<Vec<u8>, NoMemory>
    ensures { IfOk result (λ text. AnswersRing table.now colours.now text.items) }
{
    match Group::new(alloc, table) {
        Ok(group) => answer_over(alloc, &group, colours),
        Err(GroupFault::NotGroup) => refused_text(alloc, "NotGroup"),
        Err(GroupFault::NoMemory) => Err(NoMemory),
    }
}

// The answer over a group.
fn answer_over(alloc: Global, group: &Group, colours: &[u32]) -> Result<Vec<u8>, NoMemory>
    ensures { IfOk result (λ text. AnswersOverGroup group.now colours.now text.items) }
{
    match ring(alloc, group, colours) {
        Ok(numbers) => ring_text(alloc, group.order(), numbers.as_slice()),
        Err(RingFault::ColourCount) => refused_text(alloc, "ColourCount"),
        Err(RingFault::ColourRange) => refused_text(alloc, "ColourRange"),
        Err(RingFault::NoMemory) => Err(NoMemory),
    }
}

// The text of a ring with this list, over a group of so many elements.
fn ring_text(alloc: Global, points: u32, numbers: &[u32]) -> Result<Vec<u8>, NoMemory>
    requires { IsGrowth points numbers.now }
    ensures { IfOk result (λ text. text.items ≡ ring_text_of points numbers.now) }
{
    let mut text = Text::new(alloc);
    text.put_field(b"ring points ", points)?;
    text.put_field(b" rank ", least_above(numbers))?;
    text.put(b"\n")?;
    text.put_line(b"", numbers)?;
    Ok(text.into_bytes())
}

// The least number above all numbers of a growth string.
fn least_above(numbers: &[u32]) -> u32
    requires growth { IsGrowth (length numbers.now) numbers.now }
    requires few { length numbers.now < 2 ^ 32 }
    ensures { result ≡ next_number numbers.now }
{
    let mut next = 0;
    for number in numbers {
        if next == *number {
            next += 1;
        }
    }
    next
}
