//! The answers of `lattice`.

ghost use Rattle.std.specs.Prelude.{◌≡◌, ◌≤◌, IfOk, length};
ghost use Rattle.pair_colours.specs.Closure.{Coherent};
ghost use Rattle.pair_colours.specs.Naming.{named_of, rank_of};
ghost use Rattle.visitors.specs.declared.visitor.TheConstants.{MOST_SET_RANK};
ghost use Rattle.colour_wl.specs.Fusions.{IsFusions};
ghost use Rattle.fusion_lattice.specs.declared.covering.TheConstants.{MOST_FUSIONS};
ghost use Rattle.neighbour_answers.specs.LatticeAnswer.{AnswersCommon, AnswersLattice, AreListed, OverFusions, ShowsCommon, ShowsLattice};

use crate::lattice_texts::{common_text, lattice_text};
use fusion_lattice::{MOST_FUSIONS, common, covers};
use mergings::mergings;
use pair_colours::{Colouring, NoMemory};
use report_text::refused_text;
use std::alloc::Global;
use struct_consts::Constants;
use visitors::{MOST_SET_RANK, Visitor};

/// The answer for a coherent and named colouring: all its fusions, and which of them covers which; or
/// the first of `refused RankAbove` and `refused TooManyFusions` that applies. The visitor meets the
/// fusions, one more than `MOST_FUSIONS` of them at most.
pub fn lattice_answer(
    alloc: Global,
    closure: &Colouring,
    visitor: &mut dyn Visitor,
) -> Result<Vec<u8>, NoMemory>
    requires coherent { Coherent closure.now }
    requires named { named_of closure.now ≡ closure.now }
    ensures { IfOk result (λ text. AnswersLattice closure.now text.items) }
{
    if closure.rank(alloc)? > MOST_SET_RANK {
        return refused_text(alloc, "RankAbove");
    }
    let constants = Constants::of(alloc, closure)?;
    lattice_over(alloc, &constants, visitor)
}

// The answer over few classes.
fn lattice_over(
    alloc: Global,
    k: &Constants,
    visitor: &mut dyn Visitor,
) -> Result<Vec<u8>, NoMemory>
    requires { rank_of k.now ≤ MOST_SET_RANK }
    ensures { IfOk result (λ text. OverFusions k.now text.items (ShowsLattice k.now text.items)) }
{
    if !list_fusions(alloc, k, &mut *visitor)? {
        return refused_text(alloc, "TooManyFusions");
    }
    lattice_of(alloc, k, &*visitor)
}

// The answer over few fusions, which the visitor has met.
fn lattice_of(alloc: Global, k: &Constants, fusions: &dyn Visitor) -> Result<Vec<u8>, NoMemory>
    requires rank { rank_of k.now ≤ MOST_SET_RANK }
    requires fusions { IsFusions k.now (met fusions.now) }
    requires few { length (met fusions.now) ≤ MOST_FUSIONS }
    ensures { IfOk result (λ text. ShowsLattice k.now text.items (met fusions.now)) }
{
    let covers = covers(alloc, k, fusions)?;
    lattice_text(alloc, fusions, &covers)
}

/// The answer for a coherent and named colouring and the places of two of its fusions, counted from
/// 0: `common I J P`, where P is the place of the coarsest fusion that is finer than both; or the
/// first of `refused RankAbove`, `refused TooManyFusions` and `refused PlaceRange` that applies. The
/// visitor meets the fusions, one more than `MOST_FUSIONS` of them at most.
pub fn common_answer(
    alloc: Global,
    closure: &Colouring,
    i: u32,
    j: u32,
    visitor: &mut dyn Visitor,
) -> Result<Vec<u8>, NoMemory>
    requires coherent { Coherent closure.now }
    requires named { named_of closure.now ≡ closure.now }
    ensures { IfOk result (λ text. AnswersCommon closure.now i j text.items) }
{
    if closure.rank(alloc)? > MOST_SET_RANK {
        return refused_text(alloc, "RankAbove");
    }
    let constants = Constants::of(alloc, closure)?;
    common_over(alloc, &constants, i, j, visitor)
}

// The answer over few classes.
fn common_over(
    alloc: Global,
    k: &Constants,
    i: u32,
    j: u32,
    visitor: &mut dyn Visitor,
) -> Result<Vec<u8>, NoMemory>
    requires { rank_of k.now ≤ MOST_SET_RANK }
    ensures { IfOk result (λ text. OverFusions k.now text.items (ShowsCommon k.now i j text.items)) }
{
    if !list_fusions(alloc, k, &mut *visitor)? {
        return refused_text(alloc, "TooManyFusions");
    }
    common_of(alloc, k, i, j, &*visitor)
}

// The answer over few fusions, which the visitor has met.
fn common_of(
    alloc: Global,
    k: &Constants,
    i: u32,
    j: u32,
    fusions: &dyn Visitor,
) -> Result<Vec<u8>, NoMemory>
    requires rank { rank_of k.now ≤ MOST_SET_RANK }
    requires fusions { IsFusions k.now (met fusions.now) }
    requires few { length (met fusions.now) ≤ MOST_FUSIONS }
    ensures { IfOk result (λ text. ShowsCommon k.now i j text.items (met fusions.now)) }
{
    let count = fusions.len();
    if i.max(j) >= count {
        return refused_text(alloc, "PlaceRange");
    }
    let place = common(alloc, k, fusions, i, j)?;
    common_text(alloc, i, j, place)
}

// Lists the fusions in the visitor: whether they are few, and then all of them were met.
fn list_fusions(alloc: Global, k: &Constants, visitor: &mut dyn Visitor) -> Result<bool, NoMemory>
    requires { rank_of k.now ≤ MOST_SET_RANK }
    ensures { IfOk result (λ few. AreListed k.now few (met visitor.new)) }
{
    visitor.begin(MOST_FUSIONS + 1);
    match mergings(alloc, k, None, &mut *visitor) {
        Ok(()) => Ok(visitor.len() <= MOST_FUSIONS),
        Err(_fault) => Err(NoMemory),
    }
}
