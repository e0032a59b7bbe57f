//! The count of two colours in a row of entries.

ghost use Rattle.std.specs.Prelude.{◌≡◌, AllPairs};
ghost use Rattle.triangle_count.specs.Row.{Precedes};
ghost use Rattle.struct_consts.specs.Lookup.{is_before, IsPlaceIn, IsCountIn};

use triangle_count::Entry;

// The count of the entry of two colours, or 0 if there is none.
pub(crate) fn count_in(entries: &[Entry], left: u32, right: u32) -> u32
    requires { AllPairs Precedes entries.now }
    ensures { IsCountIn entries.now left right result }
{
    let place = place_in(entries, left, right);
    if place < entries.len() {
        let e = entries[place];
        if e.left == left && e.right == right {
            return e.count;
        }
    }
    0
}

// The place of two colours: how many entries stand before it.
fn place_in(entries: &[Entry], left: u32, right: u32) -> usize
    requires { AllPairs Precedes entries.now }
    ensures { IsPlaceIn entries.now left right result }
{
    entries.partition_point(|e| stands_before(*e, left, right))
}

// Whether an entry stands before the place of two colours.
fn stands_before(e: Entry, left: u32, right: u32) -> bool
    ensures { result ≡ is_before left right e }
{
    e.left < left || (e.left == left && e.right < right)
}
