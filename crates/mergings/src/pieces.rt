//! The list of fusions in pieces, each resumed after the last string of the one before it.

ghost use Rattle.std.specs.Prelude.{◌≡◌, ◌-◌, ◌^◌, ◌<◌, ◌≤◌, ◌++◌, [], None, length, get_or, map, vec_items, All, IfOk, IfSome, OnOk};
ghost use Rattle.pair_colours.specs.Naming.{rank_of};
ghost use Rattle.colour_wl.specs.GrowthStrings.{IsGrowth};
ghost use Rattle.colour_wl.specs.Fusions.{IsFusionsAfter};
ghost use Rattle.visitors.specs.Entries.{IsEntry};
ghost use Rattle.visitors.specs.declared.visitor.TheConstants.{MOST_SET_RANK};
ghost use Rattle.good_subsets.specs.Products.{IsTable};
ghost use Rattle.mergings.specs.Cuts.{IsListCut};
ghost use Rattle.mergings.specs.Listed.{IsFrontAdded};
ghost use Rattle.mergings.specs.Searches.{AreByLeast};
ghost use Rattle.mergings.specs.Mergings.{IsMergings, IsGrowthOrNone, IsResumed, IsFrontOf, IsAllOf};

use crate::delivering::{first_fusions, fusions_after};
use crate::met::Met;
use pair_colours::NoMemory;
use std::alloc::Global;
use struct_consts::Constants;
use visitors::{Next, Visitor};

// How many strings the first piece has, and the most that a later one has.
const FIRST_PIECE: usize = 256;

const MOST_PIECE: usize = 32768;

// Meets the first strings of the list, as many as there is room for.
fn find_piece(
    alloc: Global,
    k: &Constants,
    table: &[u32],
    goods: &[Vec<u32>],
    after: Option<&[u32]>,
    room: usize,
    met: &mut Met,
) -> Result<(), NoMemory>
    requires small { rank_of k.now ≤ MOST_SET_RANK }
    requires table { IsTable k.now table.now }
    requires goods { AreByLeast k.now (map vec_items goods.now) }
    requires after { IsGrowthOrNone (rank_of k.now) after }
    requires empty { met.old ≡ [] }
    requires room { 1 ≤ room }
    ensures { OnOk result (IsListCut (IsMergings k.now after.entry) room met.new) }
{
    match after {
        None => first_fusions(alloc, k, table, goods, room, met),
        Some(string) => fusions_after(alloc, k, table, goods, string, room, met),
    }
}

// The string at a place.
fn entry_at(strings: &[Vec<u32>], place: usize) -> &[u32]
    requires place { place < length strings.now }
    requires entries { All IsEntry (map vec_items strings.now) }
    ensures same { result.now ≡ get_or (map vec_items strings.now) place [] }
    ensures entry { IsEntry result.now }
{
    &strings[place]
}

// Delivers strings while there is room.
fn deliver_strings(strings: &[Vec<u32>], visitor: &mut dyn Visitor) -> Result<Next, NoMemory>
    requires space { length (met visitor.old) < room visitor.old }
    requires entries { All IsEntry (map vec_items strings.now) }
    ensures front { IsFrontAdded (map vec_items strings.now) (met visitor.old) (met visitor.new) }
    ensures more { IfOk result (λ next. next ≡ Next.More → met visitor.new ≡ met visitor.old ++ map vec_items strings.now) }
    ensures space { IfOk result (λ next. next ≡ Next.More → length (met visitor.new) < room visitor.old) }
    ensures stop { IfOk result (λ next. next ≡ Next.Stop → length (met visitor.new) ≡ room visitor.old) }
    ensures room { room visitor.new ≡ room visitor.old }
{
    for place in 0..strings.len() {
        let entry = entry_at(strings, place);
        match visitor.meet(entry)? {
            Next::Stop => return Ok(Next::Stop),
            Next::More => {}
        }
    }
    Ok(Next::More)
}

// Delivers a piece of the list, and gives its last string where more may follow and there is room.
fn deliver_piece(
    alloc: Global,
    k: &Constants,
    table: &[u32],
    goods: &[Vec<u32>],
    after: Option<&[u32]>,
    size: usize,
    visitor: &mut dyn Visitor,
) -> Result<Option<Vec<u32>>, NoMemory>
    requires small { rank_of k.now ≤ MOST_SET_RANK }
    requires table { IsTable k.now table.now }
    requires goods { AreByLeast k.now (map vec_items goods.now) }
    requires after { IsGrowthOrNone (rank_of k.now) after }
    requires size { 1 ≤ size }
    requires space { length (met visitor.old) < room visitor.old }
    ensures front { IsFrontOf (IsMergings k.now after.entry) (met visitor.old) (met visitor.new) }
    ensures end { IfOk result (λ next. next ≡ None → IsAllOf (IsMergings k.now after.entry) (room visitor.old) (met visitor.old) (met visitor.new)) }
    ensures next { IfOk result (λ next. IfSome next (λ last. IsResumed k.now (IsMergings k.now after.entry) (met visitor.old) (met visitor.new) last.items)) }
    ensures space { IfOk result (λ next. IfSome next (λ _. length (met visitor.new) < room visitor.old)) }
    ensures room { room visitor.new ≡ room visitor.old }
{
    k.rank();
    let mut piece = Met::new(alloc);
    find_piece(alloc, k, table, goods, after, size, &mut piece)?;
    let strings = piece.strings();
    match deliver_strings(strings, visitor)? {
        Next::Stop => return Ok(None),
        Next::More => {}
    }
    if strings.len() < size {
        return Ok(None);
    }
    let last = Vec::from_slice(alloc, entry_at(strings, size - 1))?;
    Ok(Some(last))
}

// Delivers the fusions after a string, in pieces that grow, while there is room.
fn deliver_rest(
    alloc: Global,
    k: &Constants,
    table: &[u32],
    goods: &[Vec<u32>],
    first: Vec<u32>,
    visitor: &mut dyn Visitor,
) -> Result<(), NoMemory>
    requires small { rank_of k.now ≤ MOST_SET_RANK }
    requires table { IsTable k.now table.now }
    requires goods { AreByLeast k.now (map vec_items goods.now) }
    requires first { IsGrowth (rank_of k.now) first.items }
    requires space { length (met visitor.old) < room visitor.old }
    ensures front { IsFrontOf (IsFusionsAfter k.now first.items) (met visitor.old) (met visitor.new) }
    ensures all { OnOk result (IsAllOf (IsFusionsAfter k.now first.items) (room visitor.old) (met visitor.old) (met visitor.new)) }
    ensures room { room visitor.new ≡ room visitor.old }
{
    let mut last = first;
    let mut size = FIRST_PIECE;
    loop {
        match deliver_piece(alloc, k, table, goods, Some(last.as_slice()), size, visitor)? {
            None => return Ok(()),
            Some(string) => last = string,
        }
        if size < MOST_PIECE {
            size *= 2;
        }
    }
}

/// Delivers the list, in pieces, while there is room.
pub(crate) fn deliver_list(
    alloc: Global,
    k: &Constants,
    table: &[u32],
    goods: &[Vec<u32>],
    after: Option<&[u32]>,
    visitor: &mut dyn Visitor,
) -> Result<(), NoMemory>
    requires small { rank_of k.now ≤ MOST_SET_RANK }
    requires table { IsTable k.now table.now }
    requires goods { AreByLeast k.now (map vec_items goods.now) }
    requires after { IsGrowthOrNone (rank_of k.now) after }
    requires space { length (met visitor.old) < room visitor.old }
    ensures front { IsFrontOf (IsMergings k.now after.entry) (met visitor.old) (met visitor.new) }
    ensures all { OnOk result (IsAllOf (IsMergings k.now after.entry) (room visitor.old) (met visitor.old) (met visitor.new)) }
    ensures room { room visitor.new ≡ room visitor.old }
{
    let next = deliver_piece(alloc, k, table, goods, after, FIRST_PIECE, visitor)?;
    let Some(last) = next else {
        return Ok(());
    };
    deliver_rest(alloc, k, table, goods, last, visitor)?;
    Ok(())
}
