//! The pairs of points, parted into numbered classes.

ghost use Rattle.std.specs.Prelude.{◌≡◌, ℕ, ◌*◌, ◌<◌, ◌≤◌, ◌==◌, ◌↔◌, IsTrue, IfOk, OnOk, OnErr, IfSome, IfNone, count_by};
ghost use Rattle.std.specs.Bool.{OnFalse};
ghost use Rattle.pair_colours.specs.Colouring.{colour_at};
ghost use Rattle.pair_colours.specs.Closure.{Coherent};
ghost use Rattle.pair_colours.specs.Naming.{rank_of};
ghost use Rattle.trace_text.specs.Partition.{IsPartition};
ghost use Rattle.trace_text.specs.declared.step_list.Step.TheVariants.{Round};
ghost use Rattle.trace_text.specs.Versions.{HasStep};
ghost use Rattle.trace_text.specs.Split.{HasParts, IsAllowed, NamesClasses, split_of};
ghost use Rattle.split_cells.specs.Rows.{IsRowCopied};

use crate::building::parted;
use crate::classed_pairs::ClassedPairs;
use crate::comparing::Comparison;
use crate::faults::fault;
use crate::fibres::fibre_step;
use crate::labels::Labels;
use crate::looks::likely_step;
use crate::renumbering::renumbered;
use crate::sizes::Size;
use crate::steps::make_step;
use crate::tallies::Tally;
use crate::triangle_counts::Triangle;
use crate::turning::{turned_apart, turned_class};
use pair_colours::{Colouring, NoMemory};
use std::alloc::Global;
use std::marker::Model;
use std::mem;
use trace_text::Step;
use wl_round::round_of;
use wl_round::transposing::transposed;

/// A partition of the pairs of points into classes with the numbers from 0 on.
#[derive(Drop)]
pub struct Cells {
    pairs: ClassedPairs,
    labels: Labels,
    tally: Tally,
}

impl Model for Cells {
    ghost use Rattle.pair_colours.specs.Colouring.{PairColouring};
    ghost use Rattle.split_cells.specs.Kept.{IsKept, shown_of};

    ghost Value = { PairColouring };

    ghost view = { λ c. shown_of c.pairs c.labels };

    ghost invariant = { λ c. IsKept c.pairs c.labels c.tally };
}

impl Cells {
    /// The classes of a partition: of a colouring whose colours are the numbers from 0 on, each in use.
    /// Colourings that are canonically named are such.
    pub fn of(alloc: Global, colouring: &Colouring) -> Result<Cells, NoMemory>
        requires { IsPartition colouring.now }
        ensures { IfOk result (λ cells. cells ≡ colouring.now) }
    {
        let points = colouring.size();
        let turned = transposed(alloc, points, colouring.colours())?;
        let size = Size::new(alloc, points)?;
        let labels = Labels::new(alloc, points * points)?;
        let tally = Tally::new(alloc, points * points)?;
        let parting = parted(alloc, colouring.colours())?;
        Ok(Cells {
            pairs: ClassedPairs {
                size,
                parting,
                turned,
            },
            labels,
            tally,
        })
    }

    /// The number of points.
    pub fn size(&self) -> u32
        ensures points { result ≡ self.now.size }
        ensures within { IsPartition self.now }
    {
        self.pairs.size.points()
    }

    /// The number of classes.
    pub fn rank(&self) -> u32
        ensures rank { result ≡ rank_of self.now }
        ensures within { IsPartition self.now }
    {
        self.pairs.parting.rank
    }

    /// The class of the pair (x, y).
    pub fn class_at(&self, x: u32, y: u32) -> u32
        requires row { x < self.now.size }
        requires column { y < self.now.size }
        ensures class { result ≡ colour_at self.now x y }
        ensures within { IsPartition self.now }
    {
        let inner = self.pairs.row(x)[y as usize];
        self.labels.outer[inner as usize]
    }

    /// How many pairs class k has.
    pub fn len(&self, k: u32) -> u32
        requires { k < rank_of self.now }
        ensures { result ≡ count_by (λ colour. colour == k) self.now.colours }
    {
        let inner = self.labels.inner[k as usize];
        self.pairs.parting.members(inner).len() as u32
    }

    /// Whether a step names numbers of classes.
    pub fn names(&self, step: Step) -> bool
        ensures { IsTrue result ↔ NamesClasses self.now step }
    {
        let rank = self.rank();
        match step {
            Step::Diag { class } => class < rank,
            Step::Flip { class, other } => class < rank && other < rank,
            Step::Tri { class, left, right } => class < rank && left < rank && right < rank,
            Step::Round => true,
        }
    }

    // Gives the pairs from x their classes as colours.
    fn copy_row(&self, colouring: &mut Colouring, x: u32)
        requires sizes { colouring.old.size ≡ self.now.size }
        requires row { x < self.now.size }
        ensures { IsRowCopied self.now x colouring.old colouring.new }
    {
        for y in 0..self.size() {
            colouring.set(x, y, self.class_at(x, y));
        }
    }

    /// The partition as a colouring.
    pub fn colouring(&self, alloc: Global) -> Result<Colouring, NoMemory>
        ensures classes { IfOk result (λ colouring. colouring ≡ self.now) }
        ensures within { IsPartition self.now }
    {
        let mut colouring = Colouring::new(alloc, self.pairs.size.points(), 0)?;
        for x in 0..self.size() {
            self.copy_row(&mut colouring, x);
        }
        Ok(colouring)
    }

    /// Makes a step on one class, and says whether the class had two parts. If not, nothing has
    /// changed.
    pub fn split(&mut self, step: Step) -> bool
        requires one_class { HasStep 1 step }
        requires names { NamesClasses self.old step }
        ensures parts { self.new ≡ split_of self.old step }
        ensures split { IsTrue result ↔ HasParts self.old step }
        ensures same { OnFalse result (self.new ≡ self.old) }
        ensures within { IsPartition self.new }
    {
        let inner = self.labels.inner_step(step);
        let split = make_step(&mut self.pairs, &mut self.labels, &mut self.tally, inner);
        self.tally.clear();
        split
    }

    // The cells after the step `R`.
    fn after_round(&self, alloc: Global) -> Result<Cells, NoMemory>
        ensures parts { IfOk result (λ cells. cells ≡ split_of self.now Round) }
        ensures within { IsPartition self.now }
    {
        let partition = self.colouring(alloc)?;
        let round = round_of(alloc, &partition)?;
        let parted = renumbered(alloc, &partition, self.rank(), &round)?;
        Cells::of(alloc, &parted)
    }

    /// Makes the step `R`, and says whether some class had two parts. If not, or where there is not
    /// enough memory, nothing has changed.
    pub fn round(&mut self, alloc: Global) -> Result<bool, NoMemory>
        ensures parts { OnOk result (self.new ≡ split_of self.old Round) }
        ensures split { IfOk result (λ split. IsTrue split ↔ HasParts self.old Round) }
        ensures same { IfOk result (λ split. OnFalse split (self.new ≡ self.old)) }
        ensures unchanged { OnErr result (self.new ≡ self.old) }
        ensures within { IsPartition self.new }
    {
        let mut cells = self.after_round(alloc)?;
        let split = cells.rank() > self.rank();
        if split {
            mem::swap(self, &mut cells);
        }
        Ok(split)
    }

    // The triangle step with the numbers by which classes are shown.
    fn shown_triangle(&self, t: Triangle) -> Option<Step>
        ensures { IfSome result (HasStep 1) }
    {
        Some(Step::Tri {
            class: *self.labels.outer.get(t.class as usize)?,
            left: *self.labels.outer.get(t.left as usize)?,
            right: *self.labels.outer.get(t.right as usize)?,
        })
    }

    /// A step on class k that a look at a few points suggests, and that does not take long. It serves
    /// a search: nothing is promised of it.
    pub fn likely_step(&self, k: u32, seed: u32) -> Option<Step>
        requires { k < rank_of self.now }
        ensures { IfSome result (HasStep 1) }
    {
        let inner = self.labels.inner[k as usize];
        self.shown_triangle(likely_step(&self.pairs, inner, seed)?)
    }

    /// Room for `odd_step`.
    pub fn comparison(&self, alloc: Global) -> Result<Comparison, NoMemory> {
        Comparison::new(alloc, self.pairs.size.points())
    }

    /// A step that parts a pair of class k from its first pair, if the two differ in how often two
    /// classes stand over a point. It serves a search: nothing is promised of it.
    pub fn odd_step(&self, k: u32, comparison: &mut Comparison) -> Option<Step>
        requires { k < rank_of self.now }
        ensures { IfSome result (HasStep 1) }
    {
        let inner = self.labels.inner[k as usize];
        self.shown_triangle(comparison.step(&self.pairs, inner)?)
    }

    /// A step that parts class k by the class of its first transposed pair, if that has not all of
    /// them. It serves a search: nothing is promised of it.
    pub fn flip_step(&self, k: u32) -> Option<Step>
        requires { k < rank_of self.now }
        ensures { IfSome result (HasStep 1) }
    {
        let inner = self.labels.inner[k as usize];
        let other = turned_apart(&self.pairs, inner)?;
        Some(Step::Flip {
            class: k,
            other: *self.labels.outer.get(other as usize)?,
        })
    }

    /// A step that parts class k by a fibre that its first pair leads from or to, if another pair
    /// leads from or to another. It serves a search: nothing is promised of it.
    pub fn fibre_step(&self, k: u32) -> Option<Step>
        requires { k < rank_of self.now }
        ensures { IfSome result (HasStep 1) }
    {
        let inner = self.labels.inner[k as usize];
        self.shown_triangle(fibre_step(&self.pairs, inner)?)
    }

    /// The class of a transposed pair of class k. It serves a search: nothing is promised of it.
    pub fn turned_class(&self, k: u32) -> Option<u32>
        requires { k < rank_of self.now }
    {
        let inner = self.labels.inner[k as usize];
        self.labels
            .outer
            .get(turned_class(&self.pairs, inner) as usize)
            .copied()
    }

    /// A step on one class that is not idle; none where the partition is coherent.
    pub fn first_fault(&self, alloc: Global) -> Result<Option<Step>, NoMemory>
        ensures fault { IfOk result (λ found. IfSome found (λ step. IsAllowed self.now step)) }
        ensures one_class { IfOk result (λ found. IfSome found (HasStep 1)) }
        ensures coherent { IfOk result (λ found. IfNone found (Coherent self.now)) }
        ensures within { IsPartition self.now }
    {
        match fault(alloc, &self.pairs)? {
            Some(step) => Ok(Some(self.labels.shown_step(step))),
            None => Ok(None),
        }
    }
}
