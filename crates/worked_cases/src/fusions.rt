//! Configurations whose fusions and good sets of colours can be worked out by hand.

use crate::configurations::{ONE_POINT, SEVENTEEN_COLOURS, TWO_FIBRES, configuration};
use crate::fixtures::{CUBE, CYCLE, same_bytes, same_numbers};
use colour_wl::{close_colours, is_fusion, is_growth};
use good_subsets::{good, good_numbers};
use mergings::{MergeFault, mergings};
use report_text::{SetHead, mergings_text, sets_text};
use std::alloc::Global;
use std::process::Abort;
use std::test::Fail;
use struct_consts::Constants;
use visitors::{Keep, Packed, RankFault, Visitor};

// Configurations, strings, and their closures; an empty one: the string is no growth string. The
// fusions of the 3-cube are 0111, 0112, 0121 and 0123; of two points, each a fibre of its own, the
// diagonal colours may be merged.
const STRINGS: [(&[u8], &[u32], &[u32]); 14] = [
    (CUBE, &[0, 1, 2, 2], &[0, 1, 2, 3]),
    (CUBE, &[0, 1, 1, 1], &[0, 1, 1, 1]),
    (CUBE, &[0, 2, 1, 1], &[]),
    (CUBE, &[0, 1, 1, 2], &[0, 1, 1, 2]),
    (CUBE, &[0, 1, 2, 1], &[0, 1, 2, 1]),
    (CUBE, &[0, 0, 0, 0], &[0, 1, 1, 1]),
    (CUBE, &[1, 0, 0, 0], &[]),
    (TWO_FIBRES, &[0, 0, 1, 1], &[0, 0, 1, 1]),
    (TWO_FIBRES, &[0, 0, 1, 2], &[0, 1, 2, 3]),
    (TWO_FIBRES, &[0, 1, 2, 2], &[0, 1, 2, 3]),
    (TWO_FIBRES, &[0, 1, 1, 2], &[0, 1, 2, 3]),
    (ONE_POINT, &[0], &[0]),
    (ONE_POINT, &[], &[]),
    (ONE_POINT, &[0, 0], &[]),
];

// The string has this closure.
fn closes(
    rt: &impl Abort,
    alloc: Global,
    k: &Constants,
    string: &[u32],
    closure: &[u32],
) -> Result<(), Fail> {
    let grows = is_growth(string, k.rank());
    assert_eq!(rt; grows, !closure.is_empty());
    if grows {
        same_numbers(rt, close_colours(alloc, k, string)?.as_slice(), closure);
        assert_eq!(rt; is_fusion(alloc, k, string)?, string == closure);
    }
    Ok(())
}

#[test]
fn strings_close(rt: HostRuntime) -> Result<(), Fail> {
    for (matrix, string, closure) in &STRINGS {
        let k = configuration(&rt, matrix)?;
        closes(&rt, rt.alloc(), &k, string, closure)?;
    }
    Ok(())
}

// Configurations, the numbers of their good sets, and the text of the first sets that a visitor with
// so much room meets.
const GOOD_SETS: [(&[u8], &[u32], u32, &[u8]); 8] = [
    (
        CUBE,
        &[1, 2, 4, 6, 8, 10, 14],
        100,
        b"good\n0\n1\n2\n1 2\n3\n1 3\n1 2 3\nend\n",
    ),
    (CUBE, &[1, 2, 4, 6, 8, 10, 14], 1, b"good\n0\nend\n"),
    (CYCLE, &[1, 2, 4, 6], 100, b"good\n0\n1\n2\n1 2\nend\n"),
    (CYCLE, &[1, 2, 4, 6], 1, b"good\n0\nend\n"),
    (
        TWO_FIBRES,
        &[1, 2, 3, 4, 8, 12],
        100,
        b"good\n0\n1\n0 1\n2\n3\n2 3\nend\n",
    ),
    (TWO_FIBRES, &[1, 2, 3, 4, 8, 12], 1, b"good\n0\nend\n"),
    (ONE_POINT, &[1], 100, b"good\n0\nend\n"),
    (ONE_POINT, &[1], 1, b"good\n0\nend\n"),
];

// A visitor with this room meets these good sets.
fn meets_sets(
    rt: &impl Abort,
    alloc: Global,
    k: &Constants,
    room: u32,
    text: &[u8],
    visitor: &mut dyn Visitor,
) -> Result<(), Fail> {
    assert!(rt; room > 0);
    visitor.begin(room);
    let answer = good(alloc, k, visitor);
    assert_eq!(rt; answer, Ok(()));
    same_bytes(rt, &sets_text(alloc, SetHead::Good, visitor)?, text);
    Ok(())
}

// Either kind of visitor meets these good sets.
fn has_sets(
    rt: &impl Abort,
    alloc: Global,
    k: &Constants,
    room: u32,
    text: &[u8],
) -> Result<(), Fail> {
    meets_sets(rt, alloc, k, room, text, &mut Keep::new(alloc))?;
    meets_sets(rt, alloc, k, room, text, &mut Packed::new(alloc))
}

// The good sets have these numbers.
fn has_numbers(rt: &impl Abort, alloc: Global, k: &Constants, numbers: &[u32]) -> Result<(), Fail> {
    match good_numbers(alloc, k) {
        Ok(found) => same_numbers(rt, found.as_slice(), numbers),
        Err(_) => return Err(Fail::new("too many colours")),
    }
    Ok(())
}

#[test]
fn good_sets(rt: HostRuntime) -> Result<(), Fail> {
    for (matrix, numbers, room, text) in &GOOD_SETS {
        let k = configuration(&rt, matrix)?;
        has_numbers(&rt, rt.alloc(), &k, numbers)?;
        has_sets(&rt, rt.alloc(), &k, *room, text)?;
    }
    Ok(())
}

// The good sets of 17 colours are not listed, and none is met.
fn lists_no_sets(rt: &impl Abort, alloc: Global, k: &Constants, keep: &mut Keep) {
    keep.begin(1);
    let answer = good(alloc, k, keep);
    assert_eq!(rt; answer, Err(RankFault::RankAbove { rank: 17 }));
    assert_eq!(rt; keep.len(), 0);
    let numbers = good_numbers(alloc, k).err();
    assert_eq!(rt; numbers, Some(RankFault::RankAbove { rank: 17 }));
}

#[test]
fn too_many_colours(rt: HostRuntime) -> Result<(), Fail> {
    let k = configuration(&rt, SEVENTEEN_COLOURS)?;
    lists_no_sets(&rt, rt.alloc(), &k, &mut Keep::new(rt.alloc()));
    Ok(())
}

// A list of fusions: of which configuration, after which string, and in how much room; what is
// answered, and the text of what is met.
type Listing = (
    &'static [u8],
    Option<&'static [u32]>,
    u32,
    Result<(), MergeFault>,
    &'static [u8],
);

const NONE: &[u8] = b"mergings\nend\n";

const LISTINGS: [Listing; 13] = [
    (
        CUBE,
        None,
        100,
        Ok(()),
        b"mergings\n0 1 1 1\n0 1 1 2\n0 1 2 1\n0 1 2 3\nend\n",
    ),
    (CUBE, None, 2, Ok(()), b"mergings\n0 1 1 1\n0 1 1 2\nend\n"),
    (
        CUBE,
        Some(&[0, 1, 1, 2]),
        2,
        Ok(()),
        b"mergings\n0 1 2 1\n0 1 2 3\nend\n",
    ),
    (
        CUBE,
        Some(&[0, 1, 2, 0]),
        1,
        Ok(()),
        b"mergings\n0 1 2 1\nend\n",
    ),
    (CUBE, Some(&[0, 1, 2, 3]), 9, Ok(()), NONE),
    (
        CUBE,
        Some(&[0, 2, 1, 1]),
        9,
        Err(MergeFault::NotGrowth),
        NONE,
    ),
    (CUBE, Some(&[0, 1]), 9, Err(MergeFault::NotGrowth), NONE),
    (CYCLE, None, 9, Ok(()), b"mergings\n0 1 1\n0 1 2\nend\n"),
    (
        TWO_FIBRES,
        None,
        9,
        Ok(()),
        b"mergings\n0 0 1 1\n0 1 2 3\nend\n",
    ),
    (ONE_POINT, None, 9, Ok(()), b"mergings\n0\nend\n"),
    (ONE_POINT, Some(&[0]), 9, Ok(()), NONE),
    (
        SEVENTEEN_COLOURS,
        None,
        9,
        Err(MergeFault::RankAbove { rank: 17 }),
        NONE,
    ),
    (
        SEVENTEEN_COLOURS,
        Some(&[0]),
        9,
        Err(MergeFault::RankAbove { rank: 17 }),
        NONE,
    ),
];

// A visitor meets what is listed.
fn meets_fusions(
    rt: &impl Abort,
    alloc: Global,
    k: &Constants,
    row: &Listing,
    visitor: &mut dyn Visitor,
) -> Result<(), Fail> {
    let (_, after, room, answer, text) = *row;
    assert!(rt; room > 0);
    visitor.begin(room);
    let found = mergings(alloc, k, after, visitor);
    assert_eq!(rt; found, answer);
    assert!(rt; visitor.len() <= room);
    same_bytes(rt, &mergings_text(alloc, visitor, room)?, text);
    Ok(())
}

// Either kind of visitor meets what is listed.
fn has_fusions(rt: &impl Abort, alloc: Global, k: &Constants, row: &Listing) -> Result<(), Fail> {
    meets_fusions(rt, alloc, k, row, &mut Keep::new(alloc))?;
    meets_fusions(rt, alloc, k, row, &mut Packed::new(alloc))
}

#[test]
fn fusions(rt: HostRuntime) -> Result<(), Fail> {
    for row in &LISTINGS {
        has_fusions(&rt, rt.alloc(), &configuration(&rt, row.0)?, row)?;
    }
    Ok(())
}
