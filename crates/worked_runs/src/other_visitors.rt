//! A visitor that the crates below do not know.

use crate::runs::{RUN, done, ends_by, script_store};
use pair_colours::NoMemory;
use scheme_io::MemorySink;
use std::test::Fail;
use visitors::{Next, Packed, Visitor};

// A path of three points, and the same path with an end fixed, where each pair is its own class.
const TWO_LISTS: &[u8] = b"closed
0 1
0 1 3
0 1 2 3 4
end
ok points 3 rank 9
closed
0 1 2
0 1 2 3 5
0 1 2 4 7
0 1 2 6 8
0 1 2 3 4 5 6 7 8
end
";

// It hands all that it meets to another one.
#[derive(Drop)]
struct Passing {
    other: Packed,
}

impl Visitor for Passing {
    ghost met = { λ v. v.other.met };

    ghost room = { λ v. v.other.room };

    fn begin(&mut self, most: u32) {
        self.other.begin(most);
    }

    fn meet(&mut self, entry: &[u32]) -> Result<Next, NoMemory> {
        self.other.meet(entry)
    }

    fn len(&self) -> u32 {
        self.other.len()
    }

    fn width(&self, entry: u32) -> u32 {
        self.other.width(entry)
    }

    fn number(&self, entry: u32, place: u32) -> u32 {
        self.other.number(entry, place)
    }
}

// Two lists, one after the other, met by that visitor.
#[test]
fn any_visitor_meets_the_lists(rt: HostRuntime) -> Result<(), Fail> {
    let alloc = rt.alloc();
    let mut store = script_store(alloc, b"Bg\n", b"closed\nfix 0\nclosed\n")?;
    let mut out = MemorySink::new(alloc, 1000, 1000)?;
    let other = Packed::new(alloc);
    let visitor: Box<dyn Visitor> = Box::new(alloc, Passing { other })?;
    ends_by(
        &rt,
        alloc,
        0,
        &RUN,
        &mut store,
        &mut out,
        done(TWO_LISTS),
        visitor,
    )
}
