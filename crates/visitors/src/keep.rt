//! Entries stored as they are.

ghost use Rattle.std.specs.Prelude.{◌≡◌, []};

use crate::visitor::{Next, Visitor, next_after};
use pair_colours::NoMemory;
use std::alloc::Global;
use std::marker::Model;

/// Stores each entry as the list of its numbers.
#[derive(Drop)]
pub struct Keep {
    alloc: Global,
    entries: Vec<Vec<u32>>,
    room: u32,
}

impl Model for Keep {
    ghost use Rattle.std.specs.Prelude.{◌≤◌, map, length, vec_items, All};
    ghost use Rattle.visitors.specs.Entries.{Met, IsEntry};

    ghost Value = { Met };

    ghost view = { λ k. record {
      met = map vec_items k.entries.items;
      room = k.room;
    } };

    ghost invariant = { λ k. (length k.entries.items ≤ k.room)
        × All (λ entry. IsEntry entry.items) k.entries.items };
}

impl Keep {
    /// No entries, and room for one. Takes no memory.
    pub fn new(alloc: Global) -> Keep
        ensures empty { result.met ≡ [] }
        ensures room { result.room ≡ 1 }
    {
        Keep {
            alloc,
            entries: Vec::new(alloc),
            room: 1,
        }
    }
}

impl Visitor for Keep {
    ghost met = { λ k. k.met };

    ghost room = { λ k. k.room };

    fn begin(&mut self, most: u32) {
        self.entries.clear();
        self.room = most;
    }

    fn meet(&mut self, entry: &[u32]) -> Result<Next, NoMemory> {
        let entry = Vec::from_slice(self.alloc, entry)?;
        self.entries.push(entry)?;
        Ok(next_after(self.entries.len(), self.room))
    }

    fn len(&self) -> u32 {
        let _room = self.room;
        self.entries.len() as u32
    }

    fn width(&self, entry: u32) -> u32 {
        self.entries[entry as usize].len() as u32
    }

    fn number(&self, entry: u32, place: u32) -> u32 {
        self.entries[entry as usize][place as usize]
    }
}
