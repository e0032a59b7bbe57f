//! The rows of all pairs of a colouring, kept while the colouring changes.

ghost use Rattle.std.specs.Prelude.{◌≡◌, ℕ, ◌*◌, ◌<◌, ◌||◌, List, true, false, length, get_or, IfOk, OnOk};
ghost use Rattle.triangle_count.specs.Row.{IsRowAt};
ghost use Rattle.triangle_count.specs.Cache.{AreRowsOf, AgreeElsewhere, AreMarked, AreRightWhereUnmarked};

use crate::rows::Row;
use crate::triangles::row_at;
use pair_colours::{Colouring, NoMemory};
use std::alloc::Global;
use std::marker::Model;

/// The triangle numbers of all pairs of a colouring, of which it keeps a copy.
#[derive(Drop)]
pub struct Cache {
    colouring: Colouring,
    rows: Vec<Row>,
}

impl Model for Cache {
    ghost use Rattle.pair_colours.specs.Colouring.{PairColouring};
    ghost use Rattle.triangle_count.specs.Cache.{AreRowsOf};

    ghost Value = { PairColouring };

    ghost view = { λ c. c.colouring };

    ghost invariant = { λ c. AreRowsOf c.colouring c.rows.items };
}

// The points from which a changed pair leads, and those to which one does.
#[derive(Drop)]
struct Marks {
    lefts: Vec<bool>,
    rights: Vec<bool>,
}

// Marks a point, if it is one.
fn mark(marks: &mut Vec<bool>, point: u32)
    ensures points { length marks.new.items ≡ length marks.old.items }
    ensures marked { point < length marks.old.items → get_or marks.new.items point false ≡ true }
    ensures others { (k : ℕ) → get_or marks.old.items k false ≡ true → get_or marks.new.items k false ≡ true }
{
    if (point as usize) < marks.len() {
        marks[point as usize] = true;
    }
}

// Marks the ends of the changed pairs.
fn marks_of(alloc: Global, size: u32, changed: &[(u32, u32)]) -> Result<Marks, NoMemory>
    ensures { IfOk result (λ marks. AreMarked size changed.now marks.lefts.items marks.rights.items) }
{
    let mut lefts = vec![in alloc; false; size as usize]?;
    let mut rights = vec![in alloc; false; size as usize]?;
    for pair in changed {
        mark(&mut lefts, pair.0);
        mark(&mut rights, pair.1);
    }
    Ok(Marks { lefts, rights })
}

impl Marks {
    // Whether the triangles over (x, y) may have changed.
    fn touch(&self, x: u32, y: u32) -> bool
        requires row { x < length self.now.lefts.items }
        requires column { y < length self.now.rights.items }
        ensures { result ≡ ((get_or self.now.lefts.items x false) || (get_or self.now.rights.items y false)) }
    {
        self.lefts[x as usize] || self.rights[y as usize]
    }
}

// The rows of all pairs.
fn rows_of(alloc: Global, c: &Colouring) -> Result<Vec<Row>, NoMemory>
    ensures { IfOk result (λ rows. AreRowsOf c.now rows.items) }
{
    let size = c.size();
    let mut rows = Vec::new(alloc);
    for place in 0..size * size {
        rows.push(row_at(alloc, c, place / size, place % size)?)?;
    }
    Ok(rows)
}

// Computes the rows of the marked pairs anew.
fn renew(alloc: Global, c: &Colouring, marks: &Marks, rows: &mut Vec<Row>) -> Result<(), NoMemory>
    requires lefts { length marks.now.lefts.items ≡ c.now.size }
    requires rights { length marks.now.rights.items ≡ c.now.size }
    requires kept { AreRightWhereUnmarked c.now marks.now.lefts.items marks.now.rights.items rows.old.items }
    ensures { OnOk result (AreRowsOf c.now rows.new.items) }
{
    let size = c.size();
    for place in 0..size * size {
        let (x, y) = (place / size, place % size);
        if marks.touch(x, y) {
            let row = row_at(alloc, c, x, y)?;
            rows[place as usize] = row;
        }
    }
    Ok(())
}

impl Cache {
    /// The cache of a colouring: all its triangle numbers that are not 0.
    pub fn new(alloc: Global, c: &Colouring) -> Result<Cache, NoMemory>
        ensures { IfOk result (λ cache. cache ≡ c.now) }
    {
        let colouring = c.copy(alloc)?;
        let rows = rows_of(alloc, &colouring)?;
        Ok(Cache { colouring, rows })
    }

    /// The triangle numbers of the pair (x, y) that are not 0.
    pub fn row(&self, x: u32, y: u32) -> &Row
        requires row { x < self.now.size }
        requires column { y < self.now.size }
        ensures { IsRowAt self.now x y result.now }
    {
        &self.rows[(x * self.colouring.size() + y) as usize]
    }

    /// The cache of a colouring that differs from the one of this cache at most at the changed
    /// pairs. Only the rows of pairs (u, y) and (x, v) for a changed pair (u, v) are computed anew.
    /// After `NoMemory` the cache is gone.
    pub fn refresh(
        self,
        alloc: Global,
        c: &Colouring,
        changed: &[(u32, u32)],
    ) -> Result<Cache, NoMemory>
        requires { AgreeElsewhere self c.now changed.now }
        ensures { IfOk result (λ cache. cache ≡ c.now) }
    {
        let marks = marks_of(alloc, c.size(), changed)?;
        let mut rows = self.rows;
        renew(alloc, c, &marks, &mut rows)?;
        let colouring = c.copy(alloc)?;
        Ok(Cache { colouring, rows })
    }
}
