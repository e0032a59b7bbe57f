//! The classes of a colouring swept for pairs that are not alike in another.

ghost use Rattle.std.specs.Prelude.{◌≡◌, ℕ, ◌+◌, ◌*◌, ◌^◌, ◌<◌, ◌≤◌, IfOk, IfSome, IfNone, length, slice_index};
ghost use Rattle.pair_colours.specs.Colouring.{colour_at};
ghost use Rattle.wl_round.specs.Comparing.{IsRoom};
ghost use Rattle.wl_round.specs.Sweeps.{AllAlike, AreMarks, ArePlacesBy, IsParting, IsRowListed, IsRun, IsRunMarked};

use crate::comparing::{Room, mark_unlike};
use crate::sides::Sides;
use crate::sorting::sorted_codes;
use pair_colours::{Colouring, NoMemory};
use std::alloc::Global;

// The places of a list, in the order of the numbers that stand there.
fn places_by(alloc: Global, numbers: &[u32]) -> Result<Vec<u32>, NoMemory>
    requires { length numbers.now < 2 ^ 31 }
    ensures { IfOk result (λ places. ArePlacesBy numbers.now places.items) }
{
    let codes = sorted_codes(alloc, numbers)?;
    let mut places = Vec::with_capacity(alloc, numbers.len())?;
    for i in 0..codes.len() {
        places.push((codes[i] % 0x1_0000_0000) as u32)?;
    }
    Ok(places)
}

// The end of the run of places of one number that begins at `start`.
fn run_end(numbers: &[u32], places: &[u32], start: usize) -> usize
    requires places { ArePlacesBy numbers.now places.now }
    requires start { start < length places.now }
    ensures { IsRun numbers.now places.now start result }
{
    let number = numbers[places[start] as usize];
    for end in start + 1..places.len() {
        if numbers[places[end] as usize] != number {
            return end;
        }
    }
    places.len()
}

// Marks the pairs of a run, those with one mark that are alike, and says whether there are two marks.
fn mark_run(sides: &Sides, room: &mut Room, members: &[u32], marks: &mut [u32]) -> bool
    requires some { 0 < length members.now }
    requires inside { (a : ℕ) → a < length members.now → slice_index members.now a < sides.now.size * sides.now.size }
    requires room { IsRoom sides.now.size room.old }
    requires marks { length marks.old ≡ sides.now.size * sides.now.size }
    ensures marked { IsRunMarked sides.now members.now marks.old marks.new result }
    ensures room { IsRoom sides.now.size room.new }
{
    if members.len() == 1 {
        return false;
    }
    mark_unlike(sides, room, members, marks)
}

// Marks the pairs of all classes, those of one class with one mark that are alike, and says whether
// a class has two marks.
fn mark_runs(
    sides: &Sides,
    room: &mut Room,
    numbers: &[u32],
    places: &[u32],
    marks: &mut [u32],
) -> bool
    requires sizes { length numbers.now ≡ sides.now.size * sides.now.size }
    requires places { ArePlacesBy numbers.now places.now }
    requires room { IsRoom sides.now.size room.old }
    requires marks { length marks.old ≡ sides.now.size * sides.now.size }
    ensures { AreMarks sides.now numbers.now marks.new result }
{
    let mut found = false;
    let mut start = 0;
    while start < places.len() {
        let end = run_end(numbers, places, start);
        if mark_run(sides, room, &places[start..end], marks) {
            found = true;
        }
        start = end;
    }
    found
}

// Gives the pairs from x the colours that stand in a list.
fn list_row(colours: &[u32], listed: &mut Colouring, x: u32)
    requires len { length colours.now ≡ listed.old.size * listed.old.size }
    requires row { x < listed.old.size }
    ensures { IsRowListed colours.now x listed.old listed.new }
{
    let size = listed.size();
    for y in 0..size {
        listed.set(x, y, colours[(x * size + y) as usize]);
    }
}

// The colouring with the colours that stand in a list.
fn listed(alloc: Global, size: u32, colours: &[u32]) -> Result<Colouring, NoMemory>
    requires has_points { 1 ≤ size }
    requires limit { size ≤ 256 }
    requires len { length colours.now ≡ size * size }
    ensures size { IfOk result (λ listed. listed.size ≡ size) }
    ensures pairs { IfOk result (λ listed. (x y : ℕ) → x < size → y < size → colour_at listed x y ≡ slice_index colours.now (x * size + y)) }
{
    let mut listed = Colouring::new(alloc, size, 0)?;
    for x in 0..size {
        list_row(colours, &mut listed, x);
    }
    Ok(listed)
}

// Marks that part two pairs of one class, and no two that are alike. None if the pairs of each class
// are alike.
pub(crate) fn sweep(
    alloc: Global,
    colouring: &Colouring,
    classes: &Colouring,
) -> Result<Option<Colouring>, NoMemory>
    requires sizes { classes.now.size ≡ colouring.now.size }
    requires numbers { (p : ℕ) → p < length colouring.now.colours → slice_index colouring.now.colours p < length colouring.now.colours }
    ensures some { IfOk result (λ found. IfSome found (IsParting colouring.now classes.now)) }
    ensures none { IfOk result (λ found. IfNone found (AllAlike colouring.now classes.now)) }
{
    let size = colouring.size();
    let sides = Sides::of(alloc, colouring)?;
    let mut room = Room::new(alloc, size)?;
    let places = places_by(alloc, classes.colours())?;
    let mut marks = vec![in alloc; 0u32; (size * size) as usize]?;
    let two = mark_runs(&sides, &mut room, classes.colours(), &places, &mut marks);
    if two {
        return Ok(Some(listed(alloc, size, &marks)?));
    }
    Ok(None)
}
