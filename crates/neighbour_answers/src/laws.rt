//! Laws over the definitions alone. Each is the contract of a function that does nothing.

ghost use Rattle.neighbour_answers.specs.Laws.{CellsAnswerExists, RingAnswerExists, RingAnswerIsUnique};

/// Every table and every list of colours has exactly one answer of `ring`.
pub fn ring_answers()
    ensures exists { RingAnswerExists }
    ensures unique { RingAnswerIsUnique }
{}

/// Every relation and every set of its colours has an answer of `cells`; its steps may be chosen.
pub fn cells_answers()
    ensures { CellsAnswerExists }
{}
