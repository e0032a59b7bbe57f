//! Laws over the definitions alone. Each is the contract of a function that does nothing.

ghost use Rattle.recolour_bench.specs.Law.{StartExists, StartIsHistory, StartIsUnique, StepExists, StepKeeps, StepIsUnique, NotBoth, RefusalIsUnique, RefusalIsAlike, PresentIsRaw, PresentIsUnique, ChainsAreAccepted, ChainsAreShort, ChainsAreRaw, ChainTextsFit, RoundChainsAreAccepted, ChainsFollow, ChainIsUnique, RoundChainIsUnique, FixTakesLeast, GrowthIsTested, FibresAreTested, MostPosition};

/// A colouring within the limits starts a history. All that it starts are alike.
pub fn starts()
    ensures exists { StartExists }
    ensures keeps { StartIsHistory }
    ensures unique { StartIsUnique }
{}

/// Every move leads from every history to one, which is a history again, where the colouring that
/// it may name is within the limits. From alike histories a move leads to alike ones, so that all runs along one list of moves have the same colourings, and
/// chains that differ in steps alone.
pub fn steps()
    ensures exists { StepExists }
    ensures keeps { StepKeeps }
    ensures unique { StepIsUnique }
{}

/// A move is either accepted or refused, and if it is refused then with one fault. Alike histories
/// refuse alike.
pub fn refusals()
    ensures not_both { NotBoth }
    ensures unique { RefusalIsUnique }
    ensures alike { RefusalIsAlike }
{}

/// The present colouring is within the limits, and alike histories have the same one.
pub fn present_colouring()
    ensures raw { PresentIsRaw }
    ensures unique { PresentIsUnique }
{}

/// Each chain of a history shows the closure: their claim is accepted, and is of version 1. The text
/// of the claim is within the limit of a trace. The colours of its stages follow one another, so that
/// there are rounds over them; these show the same closure, by a claim of version 2. Alike histories
/// have present chains that differ in steps alone, and the same rounds over them.
pub fn chains()
    ensures accepted { ChainsAreAccepted }
    ensures short { ChainsAreShort }
    ensures raw { ChainsAreRaw }
    ensures texts { ChainTextsFit }
    ensures rounds { RoundChainsAreAccepted }
    ensures following { ChainsFollow }
    ensures unique { ChainIsUnique }
    ensures round_chain_is_unique { RoundChainIsUnique }
{}

/// The number that `fix` gives a point is the least that no pair has.
pub fn fix()
    ensures { FixTakesLeast }
{}

/// The tests that refuse a string pass growth strings alone; those that refuse a wreath product pass
/// configurations with one fibre alone.
pub fn tests_of_edits()
    ensures growth { GrowthIsTested }
    ensures fibres { FibresAreTested }
{}

/// A history has at most 257 entries.
pub fn limits()
    ensures { MostPosition }
{}
