//! The pairs of points in numbered classes.

ghost use Rattle.std.specs.Prelude.{◌≡◌, ◌≢◌, ℕ, ◌+◌, ◌*◌, ◌^◌, ◌<◌, length, slice_index};
ghost use Rattle.split_cells.specs.Segments.{StandsBehind, bound_of, class_at};
ghost use Rattle.split_cells.specs.Pairs.{IsClassed};

use crate::partings::Parting;
use crate::sizes::Size;

// The pairs of points, each at its place, in classes; and the class of each transposed pair, so
// that a column of the one matrix is a row of the other.
#[derive(Drop)]
pub(crate) struct ClassedPairs {
    pub(crate) size: Size,
    pub(crate) parting: Parting,
    pub(crate) turned: Vec<u32>,
}

impl ClassedPairs {
    // The classes of the pairs from x.
    pub(crate) fn row(&self, x: u32) -> &[u32]
        requires classed { IsClassed self.now }
        requires point { x < self.now.size }
        ensures len { length result.now ≡ self.now.size }
        ensures entries { (z : ℕ) → z < self.now.size → slice_index result.now z ≡ slice_index self.now.parting.class.items (x * self.now.size + z) }
    {
        let size = self.size.points();
        &self.parting.class[(x * size) as usize..(x * size + size) as usize]
    }

    // The classes of the pairs to y.
    pub(crate) fn column(&self, y: u32) -> &[u32]
        requires classed { IsClassed self.now }
        requires point { y < self.now.size }
        ensures len { length result.now ≡ self.now.size }
        ensures entries { (z : ℕ) → z < self.now.size → slice_index result.now z ≡ slice_index self.now.turned.items (y * self.now.size + z) }
    {
        let size = self.size.points();
        &self.turned[(y * size) as usize..(y * size + size) as usize]
    }

    // Moves one pair from class k to class `new`, which stands right behind it.
    pub(crate) fn take_out(&mut self, p: u32, k: u32, new: u32)
        requires classed { IsClassed self.old }
        requires inside { p < bound_of self.old.parting }
        requires class { class_at self.old.parting p ≡ k }
        requires other { k ≢ new }
        requires named { new < self.old.parting.rank }
        requires behind { StandsBehind self.old.parting k new }
        ensures classed { IsClassed self.new }
        ensures size { self.new.size ≡ self.old.size }
        ensures rank { self.new.parting.rank ≡ self.old.parting.rank }
        ensures moved { class_at self.new.parting p ≡ new }
        ensures stayed { (q : ℕ) → q ≢ p → class_at self.new.parting q ≡ class_at self.old.parting q }
        ensures behind { StandsBehind self.new.parting k new }
    {
        self.parting.take_out(p, k, new);
        let place = self.size.turned(p);
        self.turned[place as usize] = new;
    }
}
