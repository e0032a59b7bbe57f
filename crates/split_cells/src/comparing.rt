//! A class compared with its first pair, by how often each two classes stand over a point. It serves
//! a search: nothing is promised of the steps that are found.

ghost use Rattle.std.specs.Prelude.{◌≡◌, ◌<◌, ◌≤◌, IfSome, length};
ghost use Rattle.pair_colours.specs.declared.coloured_pairs.TheConstants.{MOST_POINTS};
ghost use Rattle.split_cells.specs.Grids.{IsUsed};
ghost use Rattle.split_cells.specs.Pairs.{IsClassed};

use crate::classed_pairs::ClassedPairs;
use crate::sides::{Sides, sides_of};
use crate::triangle_counts::Triangle;
use pair_colours::NoMemory;
use std::alloc::Global;

// How often two classes stand over a point of the first pair, and how often they were met.
#[derive(Clone, Copy)]
struct Count {
    want: u16,
    got: u16,
}

/// Room for comparing the pairs of a class.
#[derive(Drop)]
pub struct Comparison {
    lefts: Vec<u8>,
    rights: Vec<u8>,
    counts: Vec<Count>,
}

impl Comparison {
    // Room for so many points.
    pub(crate) fn new(alloc: Global, points: u32) -> Result<Comparison, NoMemory>
        requires { points ≤ MOST_POINTS }
    {
        let pairs = (points * points) as usize;
        Ok(Comparison {
            lefts: vec![in alloc; 0; pairs]?,
            rights: vec![in alloc; 0; pairs]?,
            counts: vec![in alloc; Count { want: 0, got: 0 }; pairs]?,
        })
    }

    // The number of two classes, where they stand somewhere in the row and the column of the first
    // pair: told by the places where they stand there.
    fn code(&self, first: Sides<'_>, left: u32, right: u32) -> Option<usize> {
        let u = usize::from(*self.lefts.get(left as usize)?);
        let v = usize::from(*self.rights.get(right as usize)?);
        if *first.row.get(u)? != left || *first.column.get(v)? != right {
            return None;
        }
        Some(u.wrapping_mul(first.row.len()).wrapping_add(v))
    }

    // Notes where the classes stand in the row and the column of the first pair.
    fn note_places(&mut self, first: Sides<'_>)
        requires row { length first.row.now ≤ MOST_POINTS }
        requires column { length first.column.now ≤ MOST_POINTS }
    {
        for z in 0..first.row.len() {
            if let Some(place) = self.lefts.get_mut(first.row[z] as usize) {
                *place = z as u8;
            }
        }
        for z in 0..first.column.len() {
            if let Some(place) = self.rights.get_mut(first.column[z] as usize) {
                *place = z as u8;
            }
        }
    }

    // Counts the classes over the points of the first pair once more, or makes the counts 0.
    fn count_first(&mut self, first: Sides<'_>, up: bool)
        requires { length first.column.now ≡ length first.row.now }
    {
        for z in 0..first.row.len() {
            if let Some(code) = self.code(first, first.row[z], first.column[z]) {
                if let Some(count) = self.counts.get_mut(code) {
                    count.want = if up { count.want.wrapping_add(1) } else { 0 };
                    count.got = 0;
                }
            }
        }
    }

    // Counts two classes up to what is wanted, or down to 0. False where that is reached already.
    fn meet(&mut self, code: usize, up: bool) -> bool {
        let Some(count) = self.counts.get_mut(code) else {
            return false;
        };
        if up {
            if count.got == count.want {
                return false;
            }
            count.got = count.got.wrapping_add(1);
        } else {
            if count.got == 0 {
                return false;
            }
            count.got -= 1;
        }
        true
    }

    // A point of a pair over which two classes stand more often than over those of the first pair.
    fn exceeding(&mut self, first: Sides<'_>, own: Sides<'_>, up: bool) -> Option<usize>
        requires { length own.column.now ≡ length own.row.now }
        ensures { IfSome result (λ z. z < length own.entry.row.now) }
    {
        for z in 0..own.row.len() {
            match self.code(first, own.row[z], own.column[z]) {
                None => return Some(z),
                Some(code) => {
                    if !self.meet(code, up) {
                        return Some(z);
                    }
                }
            }
        }
        None
    }

    // The first step that parts a pair of class k from its first pair.
    fn odd_step(&mut self, pairs: &ClassedPairs, first: Sides<'_>, k: u32) -> Option<Triangle>
        requires classed { IsClassed pairs.now }
        requires class { k < pairs.now.parting.rank }
    {
        let members = pairs.parting.members(k);
        let mut up = true;
        for a in 1..members.len() {
            let own = sides_of(pairs, members[a]);
            if let Some(z) = self.exceeding(first, own, up) {
                return Some(Triangle {
                    class: k,
                    left: own.row[z],
                    right: own.column[z],
                });
            }
            up = !up;
        }
        None
    }

    // A step that parts class k; none where all its pairs are like the first.
    pub(crate) fn step(&mut self, pairs: &ClassedPairs, k: u32) -> Option<Triangle>
        requires classed { IsClassed pairs.now }
        requires used { IsUsed pairs.now.parting.class.items pairs.now.parting.rank }
        requires class { k < pairs.now.parting.rank }
    {
        let first = sides_of(pairs, pairs.parting.members(k)[0]);
        self.note_places(first);
        self.count_first(first, true);
        let found = self.odd_step(pairs, first, k);
        self.count_first(first, false);
        found
    }
}
