//! The cells of a closure in the making: the pairs of points, parted into numbered classes, and the
//! steps that split one class.
//!
//! * `cells`: `Cells`, a partition that carries out steps.
//! * `faults`: whether a partition is coherent, or else by what it can be split.
//! * `turning`, `fibres`, `looks`, `comparing`: steps for a search, which nothing is promised of, from
//!   the cheapest and most certain on: by the classes of transposed pairs, by the fibres of the points
//!   of pairs, by a look at a few points, and by comparing pairs; `sides`: the rows of classes at a
//!   pair.
//! * `codes`: short numbers of classes.
//! * `steps`: steps with inner numbers, made on the pairs in classes.
//! * `labels`: the numbers by which classes are shown, where they have other inner numbers.
//! * `splitting`: the parts of a class, by the keys of its pairs.
//! * `gathering`: those keys; `triangle_counts`: those of triangles; `flipping`: the parts by
//!   transposed classes.
//! * `renumbering`: the numbers of the classes after a round.
//! * `building`: classes from the class of each pair.
//! * `classed_pairs`: `ClassedPairs`, the pairs of points in numbered classes.
//! * `partings`: `Parting`, numbered classes, each a segment of one list.
//! * `sizes`: `Size`, the number of points, and the points of each pair.
//! * `tallies`: `Tally`, counts of which few are not 0.
//!
//! Definitions of steps and splits stand in `trace_text`.
#![tactic(auto)]

mod building;
mod cells;
mod classed_pairs;
mod codes;
mod comparing;
mod faults;
mod fibres;
mod flipping;
mod gathering;
mod labels;
mod looks;
mod partings;
mod renumbering;
mod sides;
mod sizes;
mod splitting;
mod steps;
mod tallies;
mod triangle_counts;
mod turning;

pub use cells::Cells;
pub use comparing::Comparison;
