//! The triangle numbers of one pair that are not 0.

ghost use Rattle.std.specs.Prelude.{◌≡◌, ◌^◌, ◌<◌, slice_get, length, Some};

use std::marker::Model;

/// How many triangles over a pair (x, y) have the colour `left` from x to the third point and the
/// colour `right` from there to y.
#[derive(Clone, Copy, Debug, Default, PartialEq, Eq)]
pub struct Entry {
    pub left: u32,
    pub right: u32,
    pub count: u32,
}

/// The triangle numbers of one pair that are not 0, in rising order of `left` and then `right`.
#[derive(Drop)]
pub struct Row {
    pub(crate) entries: Vec<Entry>,
}

impl Model for Row {
    ghost use Rattle.std.specs.Prelude.{List, ◌^◌, ◌<◌, length};
    ghost use Rattle.triangle_count.specs.declared.rows.Entry.{Entry};

    ghost Value = { List Entry };

    ghost view = { λ r. r.entries.items };

    ghost invariant = { λ r. length r.entries.items < 2 ^ 32 };
}

impl Row {
    /// How many entries there are.
    pub fn len(&self) -> u32
        ensures { result ≡ length self.now }
    {
        self.entries.len() as u32
    }

    /// The entry at a place.
    pub fn at(&self, place: u32) -> Entry
        requires { place < length self.now }
        ensures { slice_get self.now place ≡ Some result }
    {
        self.entries[place as usize]
    }

    /// The entries as a slice.
    pub fn as_slice(&self) -> &[Entry]
        ensures { result.now ≡ self.now }
    {
        &self.entries
    }
}
