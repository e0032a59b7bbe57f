//! A coherent configuration with its structure constants.

ghost use Rattle.std.specs.Prelude.{◌≡◌, ℕ, ◌<◌, ◌≤◌, Some, All, IfOk};
ghost use Rattle.pair_colours.specs.Colouring.{FitsColouring, IsColour, colour_at, triangles};
ghost use Rattle.pair_colours.specs.Closure.{Coherent};
ghost use Rattle.pair_colours.specs.Naming.{named_of, rank_of, first_pair_of, transpose_of};
ghost use Rattle.pair_colours.specs.IntersectionNumber.{intersection_number, pair_of_class};
ghost use Rattle.triangle_count.specs.Row.{IsRowAt};
ghost use Rattle.struct_consts.specs.ClassData.{IsConfiguration, row_count, valency_of, class_size, fibres_of, HasColoursBelow};

use crate::classes::{Class, classes_of};
use crate::lookup::count_in;
use pair_colours::{Colouring, NoMemory};
use std::alloc::Global;
use std::marker::Model;
use triangle_count::Entry;

/// A coherent configuration whose classes are named canonically, with the structure constants and
/// the data of each class. All calls but `of` look up what is kept.
#[derive(Drop)]
pub struct Constants {
    colouring: Colouring,
    classes: Vec<Class>,
}

impl Model for Constants {
    ghost use Rattle.pair_colours.specs.Colouring.{PairColouring};
    ghost use Rattle.struct_consts.specs.Kept.{IsConstants};

    ghost Value = { PairColouring };

    ghost view = { λ c. c.colouring };

    ghost invariant = { λ c. IsConstants c.colouring c.classes.items };
}

impl Constants {
    /// The constants of a coherent and named colouring.
    pub fn of(alloc: Global, k: &Colouring) -> Result<Constants, NoMemory>
        requires coherent { Coherent k.now }
        requires named { named_of k.now ≡ k.now }
        ensures { IfOk result (λ constants. constants ≡ k.now) }
    {
        let colouring = k.copy(alloc)?;
        let classes = classes_of(alloc, &colouring)?;
        Ok(Constants { colouring, classes })
    }

    /// The configuration itself.
    pub fn colouring(&self) -> &Colouring
        ensures value { result.now ≡ self.now }
        ensures configuration { IsConfiguration self.now }
        ensures fits { FitsColouring self.now }
    {
        &self.colouring
    }

    /// The number of classes.
    pub fn rank(&self) -> u32
        ensures value { result ≡ rank_of self.now }
        ensures colours { HasColoursBelow self.now result }
        ensures classes { (k : ℕ) → k < result → IsColour self.now k }
        ensures configuration { IsConfiguration self.now }
        ensures fits { FitsColouring self.now }
    {
        self.classes.len() as u32
    }

    /// The intersection number p(i, j; k): how many points z have (x, z) in class i and (z, y) in
    /// class j, for each pair (x, y) of class k.
    pub fn value(&self, i: u32, j: u32, k: u32) -> u32
        requires left { i < rank_of self.now }
        requires right { j < rank_of self.now }
        requires class { k < rank_of self.now }
        ensures number { result ≡ intersection_number self.now i j k }
        ensures everywhere { (x y : ℕ) → x < self.now.size → y < self.now.size → colour_at self.now x y ≡ k → result ≡ triangles self.now x y i j }
    {
        count_in(&self.classes[k as usize].row, i, j)
    }

    /// The first pair of class k in the naming walk.
    pub fn pair(&self, k: u32) -> (u32, u32)
        requires { k < rank_of self.now }
        ensures first { first_pair_of self.now k ≡ Some result }
        ensures row { result.0 < self.now.size }
        ensures column { result.1 < self.now.size }
        ensures colour { colour_at self.now result.0 result.1 ≡ k }
    {
        self.classes[k as usize].pair
    }

    /// The class of the turned pairs of class k.
    pub fn transpose(&self, k: u32) -> u32
        requires { k < rank_of self.now }
        ensures first { transpose_of self.now k ≡ Some result }
        ensures class { result < rank_of self.now }
        ensures everywhere { (x y : ℕ) → x < self.now.size → y < self.now.size → colour_at self.now x y ≡ k → colour_at self.now y x ≡ result }
    {
        self.classes[k as usize].transpose
    }

    /// How many points v have (x, v) in class k, for each point x of its first fibre.
    pub fn valency(&self, k: u32) -> u32
        requires { k < rank_of self.now }
        ensures number { result ≡ valency_of self.now k }
        ensures everywhere { (x y : ℕ) → x < self.now.size → y < self.now.size → colour_at self.now x y ≡ k → result ≡ row_count self.now x k }
    {
        self.classes[k as usize].valency
    }

    /// How many pairs class k has.
    pub fn size(&self, k: u32) -> u32
        requires { k < rank_of self.now }
        ensures { result ≡ class_size self.now k }
    {
        self.classes[k as usize].size
    }

    /// The diagonal classes of the first and of the second points of class k.
    pub fn fibres(&self, k: u32) -> (u32, u32)
        requires { k < rank_of self.now }
        ensures first { result ≡ fibres_of self.now k }
        ensures everywhere { (x y : ℕ) → x < self.now.size → y < self.now.size → colour_at self.now x y ≡ k → result ≡ (colour_at self.now x x, colour_at self.now y y) }
    {
        self.classes[k as usize].fibres
    }

    /// The intersection numbers p(i, j; k) of class k that are not 0, in rising order of i and
    /// then j.
    pub fn entries(&self, k: u32) -> &[Entry]
        requires { k < rank_of self.now }
        ensures row { IsRowAt self.now (pair_of_class self.now k).0 (pair_of_class self.now k).1 result.now }
        ensures everywhere { (x y : ℕ) → x < self.now.size → y < self.now.size → colour_at self.now x y ≡ k → IsRowAt self.now x y result.now }
        ensures classes { All (λ e. (e.left < rank_of self.now) × (e.right < rank_of self.now)) result.now }
    {
        &self.classes[k as usize].row
    }
}
