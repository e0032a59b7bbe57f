//! What meets the entries of a list.

ghost use Rattle.std.specs.Prelude.{◌≡◌, ◌≤◌, ◌<◌, ◌↔◌, ◌++◌, ◌∷◌, [], ℕ, List, length, slice_index, OnOk, OnErr, IfOk};
ghost use Rattle.visitors.specs.Entries.{IsEntry, entry_at};

use pair_colours::NoMemory;

/// The most colours of a configuration whose sets of colours are listed.
pub const MOST_SET_RANK: u32 = 16;

/// Whether a visitor has room for more entries.
#[derive(Clone, Copy, Debug, PartialEq, Eq)]
pub enum Next {
    More,
    Stop,
}

// Whether there is room for more than so many entries.
pub(crate) fn next_after(met: usize, room: u32) -> Next
    ensures { (result ≡ Next.Stop) ↔ (met ≡ room) }
{
    if met == room as usize {
        Next::Stop
    } else {
        Next::More
    }
}

/// Meets the entries of a list one by one, keeps them, and gives them back by their places.
pub trait Visitor: Drop {
    /// The entries met, in their order.
    ghost met: { Self → List (List ℕ) };

    /// How many it may meet.
    ghost room: { Self → ℕ };

    /// Forgets all entries, and makes room for `most` of them.
    fn begin(&mut self, most: u32)
        requires { 1 ≤ most }
        ensures empty { met self.new ≡ [] }
        ensures room { room self.new ≡ most };

    /// Meets one entry: 1 to 16 numbers, each below 16. Stop says that there is no more room.
    fn meet(&mut self, entry: &[u32]) -> Result<Next, NoMemory>
        requires space { length (met self.old) < room self.old }
        requires entry { IsEntry entry.now }
        ensures ok { OnOk result (met self.new ≡ met self.old ++ entry.now ∷ []) }
        ensures err { OnErr result (met self.new ≡ met self.old) }
        ensures room { room self.new ≡ room self.old }
        ensures stop { IfOk result (λ next. (next ≡ Next.Stop) ↔ (length (met self.new) ≡ room self.new)) };

    /// How many entries were met.
    fn len(&self) -> u32
        ensures { result ≡ length (met self.now) };

    /// How many numbers an entry has.
    fn width(&self, entry: u32) -> u32
        requires { entry < length (met self.now) }
        ensures { result ≡ length (entry_at (met self.now) entry) };

    /// The number of an entry at a place.
    fn number(&self, entry: u32, place: u32) -> u32
        requires entry { entry < length (met self.now) }
        requires place { place < length (entry_at (met self.now) entry) }
        ensures { result ≡ slice_index (entry_at (met self.now) entry) place };
}
