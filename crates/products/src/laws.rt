//! Laws over the definitions alone. Each is the contract of a function that does nothing.

ghost use Rattle.products.specs.Law.{DirectIsCoherent, DirectExists, DirectIsUnique, WreathIsCoherent, WreathExists, WreathIsUnique};

/// The direct product of coherent colourings is coherent, and so is the wreath product of coherent
/// colourings with one fibre each. Any two colourings have one product of each kind.
pub fn l7()
    ensures direct { DirectIsCoherent }
    ensures direct_exists { DirectExists }
    ensures direct_unique { DirectIsUnique }
    ensures wreath { WreathIsCoherent }
    ensures wreath_exists { WreathExists }
    ensures wreath_unique { WreathIsUnique }
{}
