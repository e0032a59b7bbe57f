//! Laws over the definitions alone. Each is the contract of a function that does nothing.

ghost use Rattle.quotients.specs.Law.{QuotientIsCoherent, QuotientExists, QuotientIsUnique, SameOrDisjoint, SubschemeIsCoherent, SubschemeExists, SubschemeIsUnique};

/// The quotient of a coherent configuration with one fibre by a closed set is coherent, and so is
/// the subscheme on each class; there is one of each. The colours met between two classes and those
/// met between two others are the same, or disjoint.
pub fn l7()
    ensures quotient { QuotientIsCoherent }
    ensures quotient_exists { QuotientExists }
    ensures quotient_unique { QuotientIsUnique }
    ensures met { SameOrDisjoint }
    ensures subscheme { SubschemeIsCoherent }
    ensures subscheme_exists { SubschemeExists }
    ensures subscheme_unique { SubschemeIsUnique }
{}
