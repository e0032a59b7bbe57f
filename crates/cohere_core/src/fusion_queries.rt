//! The answers of the lines that speak of fusions.

ghost use Rattle.std.specs.Prelude.{◌≡◌, ◌≤◌, IfOk};
ghost use Rattle.pair_colours.specs.Closure.{Coherent};
ghost use Rattle.pair_colours.specs.Naming.{named_of, rank_of};
ghost use Rattle.visitors.specs.declared.visitor.TheConstants.{MOST_SET_RANK};
ghost use Rattle.script_text.specs.Grammar.{IsLimit};
ghost use Rattle.cohere_core.specs.Fusions.{AnswersClose, ListsGood, AnswersMergings, string_in};

use crate::subset_queries::MOST_SETS;
use colour_wl::{close_colours, is_growth};
use good_subsets::good;
use mergings::{MergeFault, mergings};
use pair_colours::{Colouring, NoMemory};
use report_text::{SetHead, close_text, mergings_text, refused_text, sets_text};
use std::alloc::Global;
use struct_consts::Constants;
use visitors::{MOST_SET_RANK, RankFault, Visitor};

/// The closure on the classes of a configuration of a growth string.
pub(crate) fn close_answer(
    alloc: Global,
    closure: &Colouring,
    string: &[u32],
) -> Result<Vec<u8>, NoMemory>
    requires coherent { Coherent closure.now }
    requires named { named_of closure.now ≡ closure.now }
    ensures { IfOk result (λ text. AnswersClose closure.now string.now text.items) }
{
    let rank = closure.rank(alloc)?;
    if !is_growth(string, rank) {
        return refused_text(alloc, "NotGrowth");
    }
    let constants = Constants::of(alloc, closure)?;
    let closed = close_colours(alloc, &constants, string)?;
    close_text(alloc, closed.as_slice())
}

/// The good subsets of a configuration, as the visitor met them.
pub(crate) fn good_answer(
    alloc: Global,
    closure: &Colouring,
    visitor: &mut dyn Visitor,
) -> Result<Vec<u8>, NoMemory>
    requires coherent { Coherent closure.now }
    requires named { named_of closure.now ≡ closure.now }
    ensures { IfOk result (λ text. ListsGood closure.now text.items) }
{
    if closure.rank(alloc)? > MOST_SET_RANK {
        return refused_text(alloc, "RankAbove");
    }
    let constants = Constants::of(alloc, closure)?;
    good_of_few(alloc, &constants, visitor)
}

// The same, of few classes.
fn good_of_few(
    alloc: Global,
    constants: &Constants,
    visitor: &mut dyn Visitor,
) -> Result<Vec<u8>, NoMemory>
    requires { rank_of constants.now ≤ MOST_SET_RANK }
    ensures { IfOk result (λ text. ListsGood constants.now text.items) }
{
    visitor.begin(MOST_SETS);
    match good(alloc, constants, &mut *visitor) {
        Ok(()) => sets_text(alloc, SetHead::Good, &*visitor),
        Err(RankFault::RankAbove { .. }) => unreachable!(),
        Err(RankFault::NoMemory) => Err(NoMemory),
    }
}

/// The first fusions of a configuration, at most so many, from the first on or after a string, as the
/// visitor met them: with room for one more, which tells whether more follow.
pub(crate) fn mergings_answer(
    alloc: Global,
    closure: &Colouring,
    most: u32,
    after: Option<&[u32]>,
    visitor: &mut dyn Visitor,
) -> Result<Vec<u8>, NoMemory>
    requires limit { IsLimit most }
    requires coherent { Coherent closure.now }
    requires named { named_of closure.now ≡ closure.now }
    ensures { IfOk result (λ text. AnswersMergings closure.now most (string_in after.entry) text.items) }
{
    if closure.rank(alloc)? > MOST_SET_RANK {
        return refused_text(alloc, "RankAbove");
    }
    let constants = Constants::of(alloc, closure)?;
    mergings_of_few(alloc, &constants, most, after, visitor)
}

// The same, of few classes.
fn mergings_of_few(
    alloc: Global,
    constants: &Constants,
    most: u32,
    after: Option<&[u32]>,
    visitor: &mut dyn Visitor,
) -> Result<Vec<u8>, NoMemory>
    requires limit { IsLimit most }
    requires few { rank_of constants.now ≤ MOST_SET_RANK }
    ensures { IfOk result (λ text. AnswersMergings constants.now most (string_in after.entry) text.items) }
{
    visitor.begin(most + 1);
    match mergings(alloc, constants, after, &mut *visitor) {
        Ok(()) => mergings_text(alloc, &*visitor, most),
        Err(MergeFault::RankAbove { .. }) => unreachable!(),
        Err(MergeFault::NotGrowth) => refused_text(alloc, "NotGrowth"),
        Err(MergeFault::NoMemory) => Err(NoMemory),
    }
}
