//! The answers of the lines that speak of closed subsets.

ghost use Rattle.std.specs.Prelude.{◌≡◌, ◌≤◌, IfOk};
ghost use Rattle.pair_colours.specs.Closure.{Coherent};
ghost use Rattle.pair_colours.specs.Naming.{named_of, rank_of};
ghost use Rattle.visitors.specs.declared.visitor.TheConstants.{MOST_SET_RANK};
ghost use Rattle.cohere_core.specs.ClosedSubsets.{ListsClosed, AnswersQuotient, AnswersSub};

use closed_subsets::closed;
use pair_colours::{Colouring, NoMemory};
use quotients::{QuotientFault, quotient, subscheme};
use report_text::{MatrixHead, SetHead, matrix_text, refused_text, sets_text};
use std::alloc::Global;
use struct_consts::Constants;
use visitors::{MOST_SET_RANK, RankFault, Visitor};

/// Room for all sets of the most colours.
pub(crate) const MOST_SETS: u32 = 65_536;

/// The closed subsets of a configuration, as the visitor met them.
pub(crate) fn closed_answer(
    alloc: Global,
    closure: &Colouring,
    visitor: &mut dyn Visitor,
) -> Result<Vec<u8>, NoMemory>
    requires coherent { Coherent closure.now }
    requires named { named_of closure.now ≡ closure.now }
    ensures { IfOk result (λ text. ListsClosed closure.now text.items) }
{
    if closure.rank(alloc)? > MOST_SET_RANK {
        return refused_text(alloc, "RankAbove");
    }
    let constants = Constants::of(alloc, closure)?;
    closed_of_few(alloc, &constants, visitor)
}

// The same, of few classes.
fn closed_of_few(
    alloc: Global,
    constants: &Constants,
    visitor: &mut dyn Visitor,
) -> Result<Vec<u8>, NoMemory>
    requires { rank_of constants.now ≤ MOST_SET_RANK }
    ensures { IfOk result (λ text. ListsClosed constants.now text.items) }
{
    visitor.begin(MOST_SETS);
    match closed(alloc, constants, &mut *visitor) {
        Ok(()) => sets_text(alloc, SetHead::Closed, &*visitor),
        Err(RankFault::RankAbove { .. }) => unreachable!(),
        Err(RankFault::NoMemory) => Err(NoMemory),
    }
}

/// The quotient of a configuration by a set of classes.
pub(crate) fn quotient_answer(
    alloc: Global,
    closure: &Colouring,
    set: &[u32],
) -> Result<Vec<u8>, NoMemory>
    requires coherent { Coherent closure.now }
    requires named { named_of closure.now ≡ closure.now }
    ensures { IfOk result (λ text. AnswersQuotient closure.now set.now text.items) }
{
    match quotient(alloc, closure, set) {
        Ok(matrix) => matrix_text(alloc, MatrixHead::Quotient, &matrix),
        Err(QuotientFault::NotHomogeneous) => refused_text(alloc, "NotHomogeneous"),
        Err(QuotientFault::NotClosed) => refused_text(alloc, "NotClosed"),
        Err(QuotientFault::PointRange) => unreachable!(),
        Err(QuotientFault::NoMemory) => Err(NoMemory),
    }
}

/// The subscheme of a configuration on the class of a point by a set of classes.
pub(crate) fn sub_answer(
    alloc: Global,
    closure: &Colouring,
    x: u32,
    set: &[u32],
) -> Result<Vec<u8>, NoMemory>
    requires coherent { Coherent closure.now }
    requires named { named_of closure.now ≡ closure.now }
    ensures { IfOk result (λ text. AnswersSub closure.now x set.now text.items) }
{
    match subscheme(alloc, closure, set, x) {
        Ok(matrix) => matrix_text(alloc, MatrixHead::Sub, &matrix),
        Err(QuotientFault::NotHomogeneous) => refused_text(alloc, "NotHomogeneous"),
        Err(QuotientFault::NotClosed) => refused_text(alloc, "NotClosed"),
        Err(QuotientFault::PointRange) => refused_text(alloc, "PointRange"),
        Err(QuotientFault::NoMemory) => Err(NoMemory),
    }
}
