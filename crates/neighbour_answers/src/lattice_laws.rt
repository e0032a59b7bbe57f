//! Laws over the definitions alone. Each is the contract of a function that does nothing.

ghost use Rattle.neighbour_answers.specs.LatticeLaws.{CommonAnswersAreUnique, LatticeAnswersAreUnique};

/// Every configuration has exactly one answer of `lattice`, and exactly one for each two places.
pub fn lattice_answers()
    ensures covers { LatticeAnswersAreUnique }
    ensures common { CommonAnswersAreUnique }
{}
