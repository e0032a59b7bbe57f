//! The strings of a piece of the list.

ghost use Rattle.std.specs.Prelude.{◌≡◌, ◌↔◌, ◌<◌, [], ◌∷◌, ◌++◌, length, map, vec_items, IfOk, OnOk, OnErr};
ghost use Rattle.visitors.specs.declared.visitor.Next.TheVariants.{Stop};

use pair_colours::NoMemory;
use std::alloc::Global;
use std::marker::Model;
use visitors::Next;

/// The strings that were met.
#[derive(Drop)]
pub(crate) struct Met {
    entries: Vec<Vec<u32>>,
}

impl Model for Met {
    ghost use Rattle.std.specs.Prelude.{ℕ, List, map, vec_items};

    ghost Value = { List (List ℕ) };

    ghost view = { λ m. map vec_items m.entries.items };
}

impl Met {
    /// No strings.
    pub(crate) fn new(alloc: Global) -> Met
        ensures { result ≡ [] }
    {
        Met {
            entries: Vec::new(alloc),
        }
    }

    /// The strings.
    pub(crate) fn strings(&self) -> &[Vec<u32>]
        ensures { map vec_items result.now ≡ self.now }
    {
        &self.entries
    }

    /// Puts a string at the end. Stop says that there are as many as there is room for.
    pub(crate) fn meet(
        &mut self,
        alloc: Global,
        entry: &[u32],
        room: usize,
    ) -> Result<Next, NoMemory>
        requires { length self.old < room }
        ensures ok { OnOk result (self.new ≡ self.old ++ entry.now ∷ []) }
        ensures next { IfOk result (λ next. (next ≡ Stop) ↔ (length self.new ≡ room)) }
        ensures err { OnErr result (self.new ≡ self.old) }
    {
        let copy = Vec::from_slice(alloc, entry)?;
        self.entries.push(copy)?;
        if self.entries.len() == room {
            Ok(Next::Stop)
        } else {
            Ok(Next::More)
        }
    }
}
