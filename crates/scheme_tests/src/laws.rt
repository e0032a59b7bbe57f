//! Laws over the definitions alone. Each is the contract of a function that does nothing.

ghost use Rattle.scheme_tests.specs.Law.{AnswersExist, OneOrderIsEnough};

/// Each of the five tests of a coherent configuration is decided: some record of answers is right.
pub fn some_answers()
    ensures { AnswersExist }
{}

/// Commutativity needs one order of the classes alone: if for i < j each p(i, j; k) that is not 0
/// is p(j, i; k), then all of them are, whatever i and j.
pub fn one_order()
    ensures { OneOrderIsEnough }
{}
