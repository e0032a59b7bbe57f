//! Triangle numbers, and what is kept of them while a colouring changes.

ghost use Rattle.std.specs.Prelude.{◌≡◌, [], ◌∷◌, IfOk};
ghost use Rattle.triangle_count.specs.Cache.{AgreeElsewhere};

use crate::fixtures::{PENTAGON, read};
use pair_colours::{Colouring, NoMemory};
use std::alloc::Global;
use std::process::Abort;
use std::test::Fail;
use triangle_count::{Cache, Entry, Row, count, row_at};

// The row has these entries: the colours on the left and on the right, and how often.
fn has_entries(rt: &impl Abort, row: &Row, wanted: &[(u32, u32, u32)]) {
    let len = row.len();
    assert_eq!(rt; len as usize, wanted.len());
    assert_eq!(rt; row.as_slice().len(), wanted.len());
    for place in 0..len {
        let (left, right, count) = wanted[place as usize];
        assert_eq!(rt; row.at(place), Entry { left, right, count });
    }
}

// The row of the pair (2, 1) on the cycle of five points. Its intersection numbers are in every table
// of strongly regular graphs.
const ROW: [(u32, u32, u32); 5] = [(0, 1, 1), (1, 0, 1), (1, 2, 1), (2, 1, 1), (2, 2, 1)];

#[test]
fn rows_of_the_five_cycle(rt: HostRuntime) -> Result<(), Fail> {
    let cycle = read(&rt, PENTAGON, 1)?;
    assert_eq!(rt; cycle.size(), 5);
    has_entries(&rt, &row_at(rt.alloc(), &cycle, 2, 1)?, &ROW);
    let counts = (count(&cycle, 0, 0, 1, 1), count(&cycle, 0, 0, 1, 2));
    assert_eq!(rt; counts, (2, 0));
    Ok(())
}

// The colouring of three points where the pair (0, 1) gets the colour 1.
fn split(alloc: Global, c: &Colouring) -> Result<Colouring, NoMemory>
    requires { c.now.size ≡ 3 }
    ensures { IfOk result (λ split. AgreeElsewhere c.now split ((0, 1) ∷ [])) }
{
    let mut split = c.copy(alloc)?;
    split.set(0, 1, 1);
    Ok(split)
}

// The cache of one colour on three points after the pair (0, 1) got a colour of its own.
fn after_split(alloc: Global) -> Result<Cache, NoMemory>
    ensures { IfOk result (λ cache. cache.size ≡ 3) }
{
    let c = Colouring::new(alloc, 3, 0)?;
    let after = split(alloc, &c)?;
    Cache::new(alloc, &c)?.refresh(alloc, &after, &[(0, 1)])
}

// Pairs, and their rows after the split, counted by hand: the pair itself, one of its column, one that
// keeps its triangles, and one of its row.
const AFTER_SPLIT: [(u32, u32, &[(u32, u32, u32)]); 4] = [
    (0, 1, &[(0, 0, 1), (0, 1, 1), (1, 0, 1)]),
    (2, 1, &[(0, 0, 2), (0, 1, 1)]),
    (2, 0, &[(0, 0, 3)]),
    (0, 2, &[(0, 0, 2), (1, 0, 1)]),
];

#[test]
fn rows_after_a_split(rt: HostRuntime) -> Result<(), Fail> {
    let cache = after_split(rt.alloc())?;
    for (x, y, entries) in &AFTER_SPLIT {
        assert!(rt; *x < 3 && *y < 3);
        has_entries(&rt, cache.row(*x, *y), entries);
    }
    Ok(())
}
