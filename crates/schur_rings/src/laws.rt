//! Laws over the definitions alone. Each is the contract of a function that does nothing.

ghost use Rattle.schur_rings.specs.Laws.{GroupOrNot, GrowthCounts, RingExists, RingIsFirstRow, RingIsUnique};

/// Every list of a number for each element of a group has exactly one closure on the elements, and
/// that is row 0 of the closure of its Cayley colouring.
pub fn l10()
    ensures exists { RingExists }
    ensures unique { RingIsUnique }
    ensures row { RingIsFirstRow }
{}

/// Every colouring is the table of a group, or it is not.
pub fn group_or_not()
    ensures { GroupOrNot }
{}

/// A ring has as many basic sets as the least number above all of its list tells.
pub fn basic_sets()
    ensures { GrowthCounts }
{}
