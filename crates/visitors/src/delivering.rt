//! A list of sets of colours, delivered to a visitor.

ghost use Rattle.std.specs.Prelude.{◌≡◌, ◌≤◌, [], length, take, map, All, OnOk};
ghost use Rattle.visitors.specs.Entries.{IsEntry};
ghost use Rattle.visitors.specs.Masks.{members_of};
ghost use Rattle.visitors.specs.declared.visitor.TheConstants.{MOST_SET_RANK};

use crate::masks::list_members;
use crate::visitor::{Next, Visitor};
use pair_colours::NoMemory;
use std::alloc::Global;

/// Delivers the sets of a list of masks, each with its colours rising, while there is room.
pub fn deliver_sets(
    alloc: Global,
    rank: u32,
    masks: &[u32],
    visitor: &mut dyn Visitor,
) -> Result<(), NoMemory>
    requires empty { met visitor.old ≡ [] }
    requires room { 1 ≤ room visitor.old }
    requires rank { rank ≤ MOST_SET_RANK }
    requires entries { All (λ mask. IsEntry (members_of rank mask)) masks.now }
    ensures cut { OnOk result (met visitor.new ≡ take (room visitor.old) (map (members_of rank) masks.now)) }
    ensures front { met visitor.new ≡ take (length (met visitor.new)) (map (members_of rank) masks.now) }
    ensures room { room visitor.new ≡ room visitor.old }
{
    let mut set = Vec::with_capacity(alloc, rank as usize)?;
    for mask in masks {
        list_members(rank, *mask, &mut set)?;
        match visitor.meet(&set)? {
            Next::Stop => return Ok(()),
            Next::More => {}
        }
    }
    Ok(())
}
