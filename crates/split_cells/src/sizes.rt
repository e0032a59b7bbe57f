//! The number of points, and the two points of each pair.

ghost use Rattle.std.specs.Prelude.{◌≡◌, ◌*◌, ◌/◌, ◌%◌, ◌<◌, ◌≤◌, IfOk};
ghost use Rattle.split_cells.specs.Grids.{turned_place};

use pair_colours::{MOST_POINTS, NoMemory};
use std::alloc::Global;
use std::marker::Model;

// The number of points. The pair (x, y) stands at place x * size + y; its two points are listed
// there, so that no loop has to divide.
#[derive(Drop)]
pub(crate) struct Size {
    points: u32,
    firsts: Vec<u8>,
    seconds: Vec<u8>,
}

impl Model for Size {
    ghost use Rattle.std.specs.Prelude.{ℕ};
    ghost use Rattle.split_cells.specs.Grids.{IsPointTable};

    ghost Value = { ℕ };

    ghost view = { λ s. s.points };

    ghost invariant = { λ s. IsPointTable s.points s.firsts.items s.seconds.items };
}

impl Size {
    // So many points.
    pub(crate) fn new(alloc: Global, points: u32) -> Result<Size, NoMemory>
        requires { points ≤ MOST_POINTS }
        ensures { IfOk result (λ size. size ≡ points) }
    {
        let pairs = (points * points) as usize;
        let mut firsts = Vec::with_capacity(alloc, pairs)?;
        let mut seconds = Vec::with_capacity(alloc, pairs)?;
        for x in 0..points {
            for y in 0..points {
                firsts.push(x as u8)?;
                seconds.push(y as u8)?;
            }
        }
        Ok(Size {
            points,
            firsts,
            seconds,
        })
    }

    // How many there are.
    pub(crate) fn points(&self) -> u32
        ensures { result ≡ self.now }
    {
        self.points
    }

    // The first point of the pair at place p.
    pub(crate) fn first(&self, p: u32) -> u32
        requires { p < self.now * self.now }
        ensures { result ≡ p / self.now }
    {
        u32::from(self.firsts[p as usize])
    }

    // The second point of the pair at place p.
    pub(crate) fn second(&self, p: u32) -> u32
        requires { p < self.now * self.now }
        ensures { result ≡ p % self.now }
    {
        u32::from(self.seconds[p as usize])
    }

    // The place of the transposed pair.
    pub(crate) fn turned(&self, p: u32) -> u32
        requires { p < self.now * self.now }
        ensures { result ≡ turned_place self.now p }
    {
        self.second(p) * self.points + self.first(p)
    }
}
