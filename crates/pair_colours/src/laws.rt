//! Laws over the definitions alone. Each is the contract of a function that does nothing.

ghost use Rattle.pair_colours.specs.Closure.{ClosureExists, ClosureIsUnique, NamedClosureExists, NamedClosureIsUnique, ClosureIsRaw};
ghost use Rattle.pair_colours.specs.Rounds.{AlikeIsTested};
ghost use Rattle.pair_colours.specs.ClosedSet.{ClosedSetsExist, ClosedSetsAreUnique};
ghost use Rattle.pair_colours.specs.ColourSets.{ColourSetOrNot, EdgeSetOrNot};
ghost use Rattle.pair_colours.specs.Limits.{AreLimits};
ghost use Rattle.pair_colours.specs.Subsets.{SubsetsAreAll};

/// Every colouring has a closure, and all its closures have one naming. So every colouring has
/// exactly one closure that is canonically named.
pub fn l1()
    ensures exists { ClosureExists }
    ensures unique { ClosureIsUnique }
    ensures named_exists { NamedClosureExists }
    ensures named_unique { NamedClosureIsUnique }
{}

/// The closure of a raw colouring is a raw colouring: it has as many points, and its names are fewer
/// than the raw colours.
pub fn closure_is_raw()
    ensures { ClosureIsRaw }
{}

/// The test of two pairs passes exactly where they are alike, so that a round of refinement keeps them
/// together.
pub fn alike_pairs()
    ensures { AlikeIsTested }
{}

/// Every list of numbers is a set of colours or not, and an edge set or not.
pub fn set_or_not()
    ensures colours { ColourSetOrNot }
    ensures edges { EdgeSetOrNot }
{}

/// The list of the sets of numbers below a bound has each of them, in the order of their bit numbers.
pub fn subsets()
    ensures { SubsetsAreAll }
{}

/// Every colouring has exactly one list of its closed sets of colours.
pub fn closed_sets()
    ensures exist { ClosedSetsExist }
    ensures unique { ClosedSetsAreUnique }
{}

/// There are at most 256 points, and raw colours are at most 1048575.
pub fn limits()
    ensures { AreLimits }
{}
