//! The triangles on the pairs of a class, counted over the class or over one of its sides.
//!
//! All ways give the same counts. A step that cuts a few pairs off a large class costs little over
//! a side that has a few pairs.

ghost use Rattle.std.specs.Prelude.{◌≡◌, ◌==◌, ◌&&◌, ℕ, ◌+◌, ◌*◌, ◌/◌, ◌%◌, ◌^◌, ◌<◌, length, count_by, slice_index};
ghost use Rattle.pair_colours.specs.Colouring.{points, triangles};
ghost use Rattle.trace_text.specs.declared.step_list.Step.TheVariants.{Tri};
ghost use Rattle.split_cells.specs.Segments.{bound_of, class_at};
ghost use Rattle.split_cells.specs.Pairs.{IsClassed, partition_of};
ghost use Rattle.split_cells.specs.Keys.{IsBlank, IsGathered, key_at};
ghost use Rattle.split_cells.specs.Sides.{IsRowCounted, IsColumnCounted};

use crate::classed_pairs::ClassedPairs;
use crate::tallies::Tally;

// The classes of a triangle: that of the pair (x, y), and of its sides (x, z) and (z, y).
#[derive(Clone, Copy)]
pub(crate) struct Triangle {
    pub(crate) class: u32,
    pub(crate) left: u32,
    pub(crate) right: u32,
}

// Whether the one number is `left` and the other `right`.
fn has_both(x: u32, y: u32, left: u32, right: u32) -> bool
    ensures { result ≡ ((x == left) && (y == right)) }
{
    x == left && y == right
}

// At how many places the one row has `left` and the other `right`.
fn common(xs: &[u32], ys: &[u32], left: u32, right: u32) -> u32
    requires lens { length xs.now ≡ length ys.now }
    requires small { length xs.now < 2 ^ 31 }
    ensures { result ≡ count_by (λ z. (slice_index xs.now z == left) && (slice_index ys.now z == right)) (points (length xs.now)) }
{
    let mut count = 0;
    for z in 0..xs.len() {
        if has_both(xs[z], ys[z], left, right) {
            count += 1;
        }
    }
    count
}

// How many triangles stand on the pair at place p.
fn triangles_at(pairs: &ClassedPairs, p: u32, left: u32, right: u32) -> u32
    requires classed { IsClassed pairs.now }
    requires inside { p < bound_of pairs.now.parting }
    ensures { result ≡ triangles (partition_of pairs.now) (p / pairs.now.size) (p % pairs.now.size) left right }
{
    let row = pairs.row(pairs.size.first(p));
    let column = pairs.column(pairs.size.second(p));
    common(row, column, left, right)
}

// Counts the triangles for one pair of the class after the other.
fn count_over_class(pairs: &ClassedPairs, tally: &mut Tally, t: Triangle)
    requires classed { IsClassed pairs.now }
    requires class { t.class < pairs.now.parting.rank }
    requires blank { IsBlank pairs.now.parting.class.items tally.old.counts }
    ensures { IsGathered pairs.now.parting.class.items t.class (key_at (partition_of pairs.now) (Tri t.class t.left t.right)) tally.new.counts }
{
    for p in pairs.parting.members(t.class) {
        tally.note(*p, triangles_at(pairs, *p, t.left, t.right));
    }
}

// One triangle more for each pair (x, y) of the class for which (z, y) is a right side, over all y.
fn count_row(pairs: &ClassedPairs, tally: &mut Tally, t: Triangle, x: u32, z: u32)
    requires classed { IsClassed pairs.now }
    requires first { x < pairs.now.size }
    requires third { z < pairs.now.size }
    requires len { length tally.old.counts ≡ pairs.now.size * pairs.now.size }
    requires few { (p : ℕ) → slice_index tally.old.counts p < 2 ^ 31 }
    ensures { IsRowCounted pairs.now.size pairs.now.parting.class.items t x z tally.old.counts tally.new.counts }
{
    let size = pairs.size.points();
    let own = pairs.row(x);
    let side = pairs.row(z);
    for y in 0..size {
        if has_both(side[y as usize], own[y as usize], t.right, t.class) {
            tally.bump(x * size + y);
        }
    }
}

// The same, over the pairs of the right side.
fn count_right_sides(pairs: &ClassedPairs, tally: &mut Tally, t: Triangle, x: u32, z: u32)
    requires classed { IsClassed pairs.now }
    requires first { x < pairs.now.size }
    requires third { z < pairs.now.size }
    requires right { t.right < pairs.now.parting.rank }
    requires len { length tally.old.counts ≡ pairs.now.size * pairs.now.size }
    requires few { (p : ℕ) → slice_index tally.old.counts p < 2 ^ 31 }
    ensures { IsRowCounted pairs.now.size pairs.now.parting.class.items t x z tally.old.counts tally.new.counts }
{
    let size = pairs.size.points();
    let own = pairs.row(x);
    for q in pairs.parting.members(t.right) {
        let y = pairs.size.second(*q);
        if has_both(pairs.size.first(*q), own[y as usize], z, t.class) {
            tally.bump(x * size + y);
        }
    }
}

// Counts the triangles over the pairs of class `left` as first sides.
fn count_over_left(pairs: &ClassedPairs, tally: &mut Tally, t: Triangle, few: bool)
    requires classed { IsClassed pairs.now }
    requires class { t.class < pairs.now.parting.rank }
    requires left { t.left < pairs.now.parting.rank }
    requires right { t.right < pairs.now.parting.rank }
    requires blank { IsBlank pairs.now.parting.class.items tally.old.counts }
    ensures { IsGathered pairs.now.parting.class.items t.class (key_at (partition_of pairs.now) (Tri t.class t.left t.right)) tally.new.counts }
{
    for p in pairs.parting.members(t.left) {
        let x = pairs.size.first(*p);
        let z = pairs.size.second(*p);
        if few {
            count_right_sides(pairs, tally, t, x, z);
        } else {
            count_row(pairs, tally, t, x, z);
        }
    }
}

// One triangle more for each pair (x, y) of the class for which (x, z) is a left side.
fn count_column(pairs: &ClassedPairs, tally: &mut Tally, t: Triangle, z: u32, y: u32)
    requires classed { IsClassed pairs.now }
    requires third { z < pairs.now.size }
    requires second { y < pairs.now.size }
    requires len { length tally.old.counts ≡ pairs.now.size * pairs.now.size }
    requires few { (p : ℕ) → slice_index tally.old.counts p < 2 ^ 31 }
    ensures { IsColumnCounted pairs.now.size pairs.now.turned.items t z y tally.old.counts tally.new.counts }
{
    let size = pairs.size.points();
    let own = pairs.column(y);
    let side = pairs.column(z);
    for x in 0..size {
        if has_both(side[x as usize], own[x as usize], t.left, t.class) {
            tally.bump(x * size + y);
        }
    }
}

// Counts the triangles over the pairs of class `right` as second sides.
fn count_over_right(pairs: &ClassedPairs, tally: &mut Tally, t: Triangle)
    requires classed { IsClassed pairs.now }
    requires class { t.class < pairs.now.parting.rank }
    requires right { t.right < pairs.now.parting.rank }
    requires blank { IsBlank pairs.now.parting.class.items tally.old.counts }
    ensures { IsGathered pairs.now.parting.class.items t.class (key_at (partition_of pairs.now) (Tri t.class t.left t.right)) tally.new.counts }
{
    for p in pairs.parting.members(t.right) {
        count_column(pairs, tally, t, pairs.size.first(*p), pairs.size.second(*p));
    }
}

// Counts the triangles on the pairs of the class, in the way that is likely the cheapest.
pub(crate) fn count_triangles(pairs: &ClassedPairs, tally: &mut Tally, t: Triangle)
    requires classed { IsClassed pairs.now }
    requires class { t.class < pairs.now.parting.rank }
    requires left { t.left < pairs.now.parting.rank }
    requires right { t.right < pairs.now.parting.rank }
    requires blank { IsBlank pairs.now.parting.class.items tally.old.counts }
    ensures { IsGathered pairs.now.parting.class.items t.class (key_at (partition_of pairs.now) (Tri t.class t.left t.right)) tally.new.counts }
{
    let points = pairs.size.points();
    let row = points / 2 + 10;
    let right = pairs.parting.len[t.right as usize];
    let over_class = pairs.parting.len[t.class as usize].saturating_mul(points / 4 + 8);
    let over_left = pairs.parting.len[t.left as usize].saturating_mul(right.min(row));
    let over_right = right.saturating_mul(row);
    if over_left <= over_class && over_left <= over_right {
        count_over_left(pairs, tally, t, right < row);
    } else if over_right <= over_class {
        count_over_right(pairs, tally, t);
    } else {
        count_over_class(pairs, tally, t);
    }
}
