//! Which pairs of a list are alike to the first.
//!
//! Two pairs are alike exactly where they are of one kind and their codes come equally often. The
//! codes of the first pair are counted once; for each further pair of its kind one pass over the
//! points counts up, or down again, until a code comes more often than it should.

ghost use Rattle.std.specs.Prelude.{◌≡◌, ◌≢◌, ℕ, ◌+◌, ◌*◌, ◌/◌, ◌%◌, ◌<◌, ◌≤◌, IfOk, true, length, slice_index};
ghost use Rattle.std.specs.Bool.{OnTrue, OnFalse};
ghost use Rattle.pair_colours.specs.declared.coloured_pairs.TheConstants.{MOST_POINTS};
ghost use Rattle.pair_colours.specs.Rounds.{Alike};
ghost use Rattle.wl_round.specs.CodeCounts.{AreBlank};
ghost use Rattle.wl_round.specs.Sides.{AreTables, HasCodeCounts, colouring_of};
ghost use Rattle.wl_round.specs.Comparing.{AreAlike, HasUnlike, IsMarked, IsReady, IsRoom};

use crate::code_counts::{clear, count_up, exceeding};
use crate::sides::{Pair, Sides, Tables};
use pair_colours::NoMemory;
use std::alloc::Global;

// Room for comparing: two lists of counts, all 0 between calls.
#[derive(Drop)]
pub(crate) struct Room {
    pub(crate) want: Vec<u16>,
    pub(crate) got: Vec<u16>,
}

impl Room {
    // Room for so many points.
    pub(crate) fn new(alloc: Global, points: u32) -> Result<Room, NoMemory>
        requires { points ≤ MOST_POINTS }
        ensures { IfOk result (λ room. IsRoom points room) }
    {
        let want = vec![in alloc; 0; (points * points) as usize]?;
        let got = vec![in alloc; 0; (points * points) as usize]?;
        Ok(Room { want, got })
    }
}

// Whether pair b is alike to pair a, whose codes are counted in `want`.
fn is_alike(tables: &Tables, want: &[u16], got: &mut [u16], up: &mut bool, a: Pair, b: Pair) -> bool
    requires tables { AreTables tables.now }
    requires first_x { a.x < tables.now.size }
    requires first_y { a.y < tables.now.size }
    requires x { b.x < tables.now.size }
    requires y { b.y < tables.now.size }
    requires len { length want.now ≡ tables.now.size * tables.now.size }
    requires want { HasCodeCounts tables.now a.x a.y want.now }
    requires ready { IsReady up.old want.now got.old }
    ensures yes { OnTrue result (Alike (colouring_of tables.now) a.x a.y b.x b.y) }
    ensures no { OnFalse result (¬ Alike (colouring_of tables.now) a.x a.y b.x b.y) }
    ensures ready { IsReady up.new want.now got.new }
{
    if !tables.are_of_one_kind(a, b) {
        return false;
    }
    match exceeding(want, got, *up, tables.left(b.x), tables.right(b.y)) {
        None => {
            *up = !*up;
            true
        }
        Some(_) => {
            clear(got, tables.left(a.x), tables.right(a.y));
            *up = true;
            false
        }
    }
}

// Marks the pairs after the first that are not alike to it, and says whether there is one.
fn mark_others(
    tables: &Tables,
    want: &[u16],
    got: &mut [u16],
    members: &[u32],
    marks: &mut [u32],
) -> bool
    requires tables { AreTables tables.now }
    requires some { 0 < length members.now }
    requires inside { (a : ℕ) → a < length members.now → slice_index members.now a < tables.now.size * tables.now.size }
    requires len { length want.now ≡ tables.now.size * tables.now.size }
    requires want { HasCodeCounts tables.now (slice_index members.now 0 / tables.now.size) (slice_index members.now 0 % tables.now.size) want.now }
    requires ready { IsReady true want.now got.old }
    requires marks { length marks.old ≡ tables.now.size * tables.now.size }
    ensures marked { IsMarked (colouring_of tables.now) members.now marks.old marks.new }
    ensures some { OnTrue result (HasUnlike (colouring_of tables.now) members.now marks.new) }
    ensures none { OnFalse result (AreAlike (colouring_of tables.now) members.now) }
    ensures within { (code : ℕ) → slice_index got.new code ≤ slice_index want.now code }
{
    let first = tables.pair_at(members[0]);
    marks[members[0] as usize] = 0;
    let mut up = true;
    let mut found = false;
    for a in 1..members.len() {
        let p = members[a];
        if is_alike(tables, want, got, &mut up, first, tables.pair_at(p)) {
            marks[p as usize] = 0;
        } else {
            marks[p as usize] = 1;
            found = true;
        }
    }
    found
}

// Marks the pairs that are not alike to the first one, by counts that are 0 before and after.
fn mark_by(
    tables: &Tables,
    want: &mut [u16],
    got: &mut [u16],
    members: &[u32],
    marks: &mut [u32],
) -> bool
    requires tables { AreTables tables.now }
    requires some { 0 < length members.now }
    requires inside { (a : ℕ) → a < length members.now → slice_index members.now a < tables.now.size * tables.now.size }
    requires blank { AreBlank (tables.now.size * tables.now.size) want.old got.old }
    requires marks { length marks.old ≡ tables.now.size * tables.now.size }
    ensures marked { IsMarked (colouring_of tables.now) members.now marks.old marks.new }
    ensures some { OnTrue result (HasUnlike (colouring_of tables.now) members.now marks.new) }
    ensures none { OnFalse result (AreAlike (colouring_of tables.now) members.now) }
    ensures blank { AreBlank (tables.now.size * tables.now.size) want.new got.new }
{
    let first = tables.pair_at(members[0]);
    let left = tables.left(first.x);
    let right = tables.right(first.y);
    count_up(want, left, right);
    let found = mark_others(tables, want, got, members, marks);
    clear(got, left, right);
    clear(want, left, right);
    found
}

// Marks the pairs that are not alike to the first one with 1 and the others with 0, and says whether
// there is one that is not.
pub(crate) fn mark_unlike(
    sides: &Sides,
    room: &mut Room,
    members: &[u32],
    marks: &mut [u32],
) -> bool
    requires some { 0 < length members.now }
    requires inside { (a : ℕ) → a < length members.now → slice_index members.now a < sides.now.size * sides.now.size }
    requires room { IsRoom sides.now.size room.old }
    requires marks { length marks.old ≡ sides.now.size * sides.now.size }
    ensures marked { IsMarked sides.now members.now marks.old marks.new }
    ensures some { OnTrue result (HasUnlike sides.now members.now marks.new) }
    ensures none { OnFalse result (AreAlike sides.now members.now) }
    ensures room { IsRoom sides.now.size room.new }
{
    mark_by(
        sides.tables(),
        &mut room.want,
        &mut room.got,
        members,
        marks,
    )
}
