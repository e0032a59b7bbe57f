//! Laws of good sets of colours. Each is the contract of a function that does nothing.

ghost use Rattle.good_subsets.specs.Laws.{GoodByClosure, PrefixesAreGood, OneListOfGoodSets};

/// A set of colours is good exactly where its pairs are one class of the closure of the colouring
/// 'in the set or not'.
pub fn l6()
    ensures { GoodByClosure }
{}

/// The places of each number in the first numbers of a fusion are the members, below their number,
/// of a good set.
pub fn l17()
    ensures { PrefixesAreGood }
{}

/// Every configuration has exactly one list of good sets.
pub fn good_sets()
    ensures { OneListOfGoodSets }
{}
