//! A visitor that refuses.

ghost use Rattle.std.specs.Prelude.{◌≡◌, ◌≤◌, ◌<◌, ◌↔◌, ◌++◌, ◌∷◌, [], length, OnOk, OnErr, IfOk, IsErr};
ghost use Rattle.visitors.specs.Entries.{IsEntry};

use crate::keep::Keep;
use crate::visitor::{Next, Visitor};
use pair_colours::NoMemory;
use std::alloc::Global;
use std::marker::Model;

/// Stores each entry as the list of its numbers, as `Keep` does, and refuses every entry that comes
/// after so many: for trials of what stands after a refusal.
#[derive(Drop)]
pub struct Refusing {
    kept: Keep,
    after: u32,
}

impl Model for Refusing {
    ghost use Rattle.visitors.specs.Entries.{MetUntil};

    ghost Value = { MetUntil };

    ghost view = { λ r. record {
      met = r.kept.met;
      room = r.kept.room;
      after = r.after;
    } };
}

impl Refusing {
    /// No entries, and room for one. Each entry after the first `after` of them is refused. Takes no
    /// memory.
    pub fn new(alloc: Global, after: u32) -> Refusing
        ensures { result ≡ record { met = []; room = 1; after = after } }
    {
        Refusing {
            kept: Keep::new(alloc),
            after,
        }
    }
}

impl Visitor for Refusing {
    ghost met = { λ r. r.met };

    ghost room = { λ r. r.room };

    fn begin(&mut self, most: u32)
        requires { 1 ≤ most }
        ensures empty { self.new.met ≡ [] }
        ensures room { self.new.room ≡ most }
        ensures after { self.new.after ≡ self.old.after }
    {
        self.kept.begin(most);
    }

    /// Refuses the entry where so many were met.
    fn meet(&mut self, entry: &[u32]) -> Result<Next, NoMemory>
        requires space { length self.old.met < self.old.room }
        requires entry { IsEntry entry.now }
        ensures refuses { self.old.after ≤ length self.old.met → IsErr result }
        ensures after { self.new.after ≡ self.old.after }
        // What every visitor promises.
        ensures ok { OnOk result (self.new.met ≡ self.old.met ++ entry.now ∷ []) }
        ensures err { OnErr result (self.new.met ≡ self.old.met) }
        ensures room { self.new.room ≡ self.old.room }
        ensures stop { IfOk result (λ next. (next ≡ Next.Stop) ↔ (length self.new.met ≡ self.new.room)) }
    {
        if self.kept.len() >= self.after {
            return Err(NoMemory);
        }
        self.kept.meet(entry)
    }

    fn len(&self) -> u32 {
        self.kept.len()
    }

    fn width(&self, entry: u32) -> u32 {
        self.kept.width(entry)
    }

    fn number(&self, entry: u32, place: u32) -> u32 {
        self.kept.number(entry, place)
    }
}
