//! The numbers by which the classes are shown.
//!
//! A split gives new numbers to all parts of a class but the first, which may be nearly all of it.
//! So that few pairs have to move, classes have inner numbers, and those that they are shown by.

ghost use Rattle.std.specs.Prelude.{◌≡◌, ◌≢◌, ℕ, ◌<◌, ◌≤◌, All, IfOk, slice_index, slice_set, length};
ghost use Rattle.trace_text.specs.Split.{numbers_of};
ghost use Rattle.split_cells.specs.Labels.{AreInverse, AreLabels, step_shown_by};

use crate::partings::numbers_below;
use pair_colours::NoMemory;
use std::alloc::Global;
use trace_text::Step;

// The shown number of each inner number, and the inner number of each shown one.
#[derive(Drop)]
pub(crate) struct Labels {
    pub(crate) outer: Vec<u32>,
    pub(crate) inner: Vec<u32>,
}

impl Labels {
    // Each number is shown as it is.
    pub(crate) fn new(alloc: Global, bound: u32) -> Result<Labels, NoMemory>
        ensures labels { IfOk result (λ labels. AreLabels bound 0 labels.outer.items labels.inner.items) }
        ensures same { IfOk result (λ labels. (k : ℕ) → k < bound → slice_index labels.outer.items k ≡ k) }
    {
        let outer = numbers_below(alloc, bound)?;
        let inner = Vec::from_slice(alloc, &outer)?;
        Ok(Labels { outer, inner })
    }

    // Exchanges the numbers by which two classes are shown.
    pub(crate) fn exchange(&mut self, k: u32, other: u32)
        requires inverse { AreInverse (length self.old.outer.items) self.old.outer.items self.old.inner.items }
        requires first { k < length self.old.outer.items }
        requires second { other < length self.old.outer.items }
        requires apart { k ≢ other }
        ensures inverse { AreInverse (length self.old.outer.items) self.new.outer.items self.new.inner.items }
        ensures exchanged { self.new.outer.items ≡ slice_set (slice_set self.old.outer.items k (slice_index self.old.outer.items other)) other (slice_index self.old.outer.items k) }
    {
        let first = self.outer[k as usize];
        let second = self.outer[other as usize];
        self.outer[k as usize] = second;
        self.outer[other as usize] = first;
        self.inner[first as usize] = other;
        self.inner[second as usize] = k;
    }

    // The step with inner numbers.
    pub(crate) fn inner_step(&self, step: Step) -> Step
        requires inverse { AreInverse (length self.now.outer.items) self.now.outer.items self.now.inner.items }
        requires names { All (λ number. number < length self.now.outer.items) (numbers_of step) }
        ensures names { All (λ number. number < length self.now.outer.items) (numbers_of result) }
        ensures shown { step_shown_by self.now.outer.items result ≡ step }
    {
        match step {
            Step::Diag { class } => Step::Diag {
                class: self.inner[class as usize],
            },
            Step::Flip { class, other } => Step::Flip {
                class: self.inner[class as usize],
                other: self.inner[other as usize],
            },
            Step::Tri { class, left, right } => Step::Tri {
                class: self.inner[class as usize],
                left: self.inner[left as usize],
                right: self.inner[right as usize],
            },
            Step::Round => Step::Round,
        }
    }

    // The step with the numbers by which classes are shown.
    pub(crate) fn shown_step(&self, step: Step) -> Step
        requires { All (λ number. number < length self.now.outer.items) (numbers_of step) }
        ensures { result ≡ step_shown_by self.now.outer.items step }
    {
        match step {
            Step::Diag { class } => Step::Diag {
                class: self.outer[class as usize],
            },
            Step::Flip { class, other } => Step::Flip {
                class: self.outer[class as usize],
                other: self.outer[other as usize],
            },
            Step::Tri { class, left, right } => Step::Tri {
                class: self.outer[class as usize],
                left: self.outer[left as usize],
                right: self.outer[right as usize],
            },
            Step::Round => Step::Round,
        }
    }
}
