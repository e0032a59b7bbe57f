//! A visitor that packs its entries.

ghost use Rattle.std.specs.Prelude.{◌≡◌, []};

use crate::pieces::{Piece, number_at, shared_with_last, store_tail};
use crate::visitor::{Next, Visitor, next_after};
use pair_colours::NoMemory;
use std::alloc::Global;
use std::marker::Model;

/// Stores of each entry the length of the prefix that it shares with the entry before it, and the
/// numbers after that prefix. Each sixteenth entry is stored whole, so that every number is found
/// near its entry.
#[derive(Drop)]
pub struct Packed {
    tails: Vec<u8>,
    pieces: Vec<Piece>,
    room: u32,
}

impl Model for Packed {
    ghost use Rattle.std.specs.Prelude.{◌≤◌, length};
    ghost use Rattle.visitors.specs.Entries.{Met};
    ghost use Rattle.visitors.specs.Packing.{all_unpacked, ArePieces};

    ghost Value = { Met };

    ghost view = { λ p. record {
      met = all_unpacked p.tails.items p.pieces.items;
      room = p.room;
    } };

    ghost invariant = { λ p. (length p.pieces.items ≤ p.room) × ArePieces p.tails.items p.pieces.items };
}

impl Packed {
    /// No entries, and room for one. Takes no memory.
    pub fn new(alloc: Global) -> Packed
        ensures empty { result.met ≡ [] }
        ensures room { result.room ≡ 1 }
    {
        Packed {
            tails: Vec::new(alloc),
            pieces: Vec::new(alloc),
            room: 1,
        }
    }
}

impl Visitor for Packed {
    ghost met = { λ p. p.met };

    ghost room = { λ p. p.room };

    fn begin(&mut self, most: u32) {
        self.tails.clear();
        self.pieces.clear();
        self.room = most;
    }

    fn meet(&mut self, entry: &[u32]) -> Result<Next, NoMemory> {
        let shared = shared_with_last(&self.tails, &self.pieces, entry);
        let start = self.tails.len();
        store_tail(&mut self.tails, &entry[shared..])?;
        self.pieces.push(Piece {
            shared: shared as u8,
            width: entry.len() as u8,
            start,
        })?;
        Ok(next_after(self.pieces.len(), self.room))
    }

    fn len(&self) -> u32 {
        let _room = self.room;
        self.pieces.len() as u32
    }

    fn width(&self, entry: u32) -> u32 {
        self.pieces[entry as usize].width as u32
    }

    fn number(&self, entry: u32, place: u32) -> u32 {
        number_at(&self.tails, &self.pieces, entry as usize, place as usize) as u32
    }
}
