//! The list of fusions in order, by prefixes that have few.

ghost use Rattle.std.specs.Prelude.{◌≡◌, ◌-◌, ◌^◌, ◌<◌, ◌≤◌, [], ◌++◌, length, map, vec_items, IfOk, OnOk};
ghost use Rattle.pair_colours.specs.Naming.{rank_of};
ghost use Rattle.struct_consts.specs.ClassData.{IsConfiguration};
ghost use Rattle.mergings.specs.Cuts.{IsDelivered, IsDeliveredWhole, IsListCut, later_strings};
ghost use Rattle.colour_wl.specs.Fusions.{Fuses, IsFusions, IsFusionsAfter};
ghost use Rattle.colour_wl.specs.GrowthStrings.{IsGrowth, next_number, growth_from};
ghost use Rattle.visitors.specs.declared.visitor.Next.TheVariants.{More, Stop};
ghost use Rattle.good_subsets.specs.Products.{IsTable};
ghost use Rattle.mergings.specs.Listed.{IsFrontAdded};
ghost use Rattle.mergings.specs.Searches.{AreByLeast};

use crate::met::Met;
use crate::searching::extensions;
use colour_wl::{is_fusion, next_of};
use pair_colours::NoMemory;
use std::alloc::Global;
use struct_consts::Constants;
use visitors::Next;

// Delivers the strings of a list while there is room.
fn deliver_list(
    alloc: Global,
    list: &[Vec<u32>],
    room: usize,
    met: &mut Met,
) -> Result<Next, NoMemory>
    requires { length met.old < room }
    ensures front { IsFrontAdded (map vec_items list.now) met.old met.new }
    ensures more { IfOk result (λ next. next ≡ More → met.new ≡ met.old ++ map vec_items list.now) }
    ensures left { IfOk result (λ next. next ≡ More → length met.new < room) }
    ensures stop { IfOk result (λ next. next ≡ Stop → length met.new ≡ room) }
{
    for i in 0..list.len() {
        match met.meet(alloc, &list[i], room)? {
            Next::Stop => return Ok(Next::Stop),
            Next::More => {}
        }
    }
    Ok(Next::More)
}

// Delivers the fusions that begin with the string, in their order, while there is room. `next` is
// the least number above all of the string.
fn deliver(
    alloc: Global,
    k: &Constants,
    table: &[u32],
    goods: &[Vec<u32>],
    room: usize,
    next: u32,
    string: &mut Vec<u32>,
    met: &mut Met,
) -> Result<Next, NoMemory>
    requires small { rank_of k.now ≤ 16 }
    requires table { IsTable k.now table.now }
    requires goods { AreByLeast k.now (map vec_items goods.now) }
    requires configuration { IsConfiguration k.now }
    requires growth { IsGrowth (length string.old.items) string.old.items }
    requires next { next ≡ next_number string.old.items }
    requires long { length string.old.items ≤ rank_of k.now }
    requires room { length met.old < room }
    ensures front { IsDelivered (Fuses k.now) (growth_from string.old.items (rank_of k.now - length string.old.items)) met.old met.new }
    ensures more { IfOk result (λ next. next ≡ More → IsDeliveredWhole (Fuses k.now) (growth_from string.old.items (rank_of k.now - length string.old.items)) met.old met.new) }
    ensures string { IfOk result (λ next. next ≡ More → string.new.items ≡ string.old.items) }
    ensures left { IfOk result (λ next. next ≡ More → length met.new < room) }
    ensures stop { IfOk result (λ next. next ≡ Stop → length met.new ≡ room) }
{
    if string.len() == k.rank() as usize {
        if is_fusion(alloc, k, string)? {
            return met.meet(alloc, string, room);
        }
        return Ok(Next::More);
    }
    match extensions(alloc, k, table, goods, string, room.max(256))? {
        None => {}
        Some(list) => return deliver_list(alloc, &list, room, met),
    }
    for number in 0..next + 1 {
        string.push(number)?;
        let above = if number == next { next + 1 } else { next };
        match deliver(alloc, k, table, goods, room, above, string, met)? {
            Next::Stop => return Ok(Next::Stop),
            Next::More => {
                string.pop();
            }
        }
    }
    Ok(Next::More)
}

/// Meets the first fusions of a configuration, in lexicographic order, as many as there is room for.
pub(crate) fn first_fusions(
    alloc: Global,
    k: &Constants,
    table: &[u32],
    goods: &[Vec<u32>],
    room: usize,
    met: &mut Met,
) -> Result<(), NoMemory>
    requires small { rank_of k.now ≤ 16 }
    requires table { IsTable k.now table.now }
    requires goods { AreByLeast k.now (map vec_items goods.now) }
    requires empty { met.old ≡ [] }
    requires room { 1 ≤ room }
    ensures { OnOk result (IsListCut (IsFusions k.now) room met.new) }
{
    k.rank();
    let mut string = Vec::new(alloc);
    deliver(alloc, k, table, goods, room, 0, &mut string, met)?;
    Ok(())
}

// Delivers the fusions that begin with the first numbers of `after` and have a greater one next.
fn deliver_later(
    alloc: Global,
    k: &Constants,
    table: &[u32],
    goods: &[Vec<u32>],
    after: &[u32],
    depth: usize,
    room: usize,
    met: &mut Met,
) -> Result<Next, NoMemory>
    requires small { rank_of k.now ≤ 16 }
    requires table { IsTable k.now table.now }
    requires goods { AreByLeast k.now (map vec_items goods.now) }
    requires configuration { IsConfiguration k.now }
    requires growth { IsGrowth (rank_of k.now) after.now }
    requires depth { depth < rank_of k.now }
    requires room { length met.old < room }
    ensures front { IsDelivered (Fuses k.now) (later_strings (rank_of k.now) after.now depth) met.old met.new }
    ensures more { IfOk result (λ next. next ≡ More → IsDeliveredWhole (Fuses k.now) (later_strings (rank_of k.now) after.now depth) met.old met.new) }
    ensures left { IfOk result (λ next. next ≡ More → length met.new < room) }
    ensures stop { IfOk result (λ next. next ≡ Stop → length met.new ≡ room) }
{
    k.rank();
    let mut string = Vec::from_slice(alloc, &after[..depth])?;
    let next = next_of(&string);
    let first = after[depth] + 1;
    for number in first..next + 1 {
        string.push(number)?;
        let above = if number == next { next + 1 } else { next };
        match deliver(alloc, k, table, goods, room, above, &mut string, met)? {
            Next::Stop => return Ok(Next::Stop),
            Next::More => {
                string.pop();
            }
        }
    }
    Ok(Next::More)
}

/// Meets the first fusions of a configuration that come after a growth string, in lexicographic
/// order, as many as there is room for.
pub(crate) fn fusions_after(
    alloc: Global,
    k: &Constants,
    table: &[u32],
    goods: &[Vec<u32>],
    after: &[u32],
    room: usize,
    met: &mut Met,
) -> Result<(), NoMemory>
    requires small { rank_of k.now ≤ 16 }
    requires table { IsTable k.now table.now }
    requires goods { AreByLeast k.now (map vec_items goods.now) }
    requires growth { IsGrowth (rank_of k.now) after.now }
    requires empty { met.old ≡ [] }
    requires room { 1 ≤ room }
    ensures { OnOk result (IsListCut (IsFusionsAfter k.now after.now) room met.new) }
{
    let rank = k.rank() as usize;
    for step in 0..rank {
        match deliver_later(alloc, k, table, goods, after, rank - 1 - step, room, met)? {
            Next::Stop => return Ok(()),
            Next::More => {}
        }
    }
    Ok(())
}
