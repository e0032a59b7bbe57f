//! Laws over the definitions alone. Each is the contract of a function that does nothing.

ghost use Rattle.drg_arrays.specs.Law.{AnswerExists, AnswerIsUnique, DistancesExist};

/// Whether a set of colours is that of a graph is decided, and where it is, some answer is right.
/// No graph has more than one right answer.
pub fn some_answer()
    ensures exists { AnswerExists }
    ensures unique { AnswerIsUnique }
{}

/// Every graph has a table of its distances, with a mark where no walk leads from one point to another.
pub fn some_distances()
    ensures { DistancesExist }
{}
