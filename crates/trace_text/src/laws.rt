//! Laws over the definitions alone. Each is the contract of a function that does nothing.

ghost use Rattle.trace_text.specs.Law.{SplitIsPartition, SplitRefines, SplitRank, PartsOneClass, PartsTwoKeys, SplitKeepsCoherent, MeetIsNamedMeet, AcceptedIsClosure, ClosureOfMeet, StepsExist, VerdictExists, AcceptedHasNone, FirstBadLineIsUnique, TraceReadsOrFails, ReadingHasNoFault, ReadingIsUnique, TextIsReadBack, TextIsOfOneClaim, AcceptedFitsTrace, AcceptedTextFits, RoundIsIdleOnCoherent, RoundChainEndsCoherent, RoundChainExists, RoundChainIsUnique, RoundChainIsOfColours, RoundClaimIsAccepted};
ghost use Rattle.trace_text.specs.Limits.{AreLimits};

/// A split keeps every coherent refinement below it: a coherent colouring that refines a
/// partition refines each split of it.
pub fn l2()
    ensures { SplitKeepsCoherent }
{}

/// The claimed colouring of an accepted claim is the closure of the colours of its last stage.
pub fn l3()
    ensures { AcceptedIsClosure }
{}

/// The closure of a colouring that refines another is the closure of its named meet with the
/// closure of the other.
pub fn l4()
    ensures { ClosureOfMeet }
{}

/// Each text is a trace of exactly one claim and has no fault, or has a fault and is a trace of none;
/// and what is written of a claim reads back, so that two claims with one text are equal.
pub fn l8()
    ensures reads_or_fails { TraceReadsOrFails }
    ensures no_fault { ReadingHasNoFault }
    ensures unique { ReadingIsUnique }
    ensures read_back { TextIsReadBack }
    ensures one_claim { TextIsOfOneClaim }
{}

/// The step `R` is idle exactly on a coherent partition. So a chain of rounds, each of its stages with
/// as many as are not idle, ends at a coherent partition.
pub fn l9()
    ensures idle { RoundIsIdleOnCoherent }
    ensures ends { RoundChainEndsCoherent }
{}

/// A chain whose colours follow one another has exactly one chain of rounds, which depends on its
/// colours alone. Where the chain is that of an accepted claim, its chain of rounds is accepted with
/// the same closure, in a claim of version 2.
pub fn round_chains()
    ensures exists { RoundChainExists }
    ensures unique { RoundChainIsUnique }
    ensures of_colours { RoundChainIsOfColours }
    ensures accepted { RoundClaimIsAccepted }
{}

/// From every partition some steps lead, each by a split of one class, to a coherent partition.
pub fn l15()
    ensures { StepsExist }
{}

/// The text of an accepted claim is within the limits of a trace, where its colourings are raw and it
/// has at most 257 stages.
pub fn l16()
    ensures numbers { AcceptedFitsTrace }
    ensures bytes { AcceptedTextFits }
{}

/// A split of a partition is a partition that refines it, and has one class more for each key that
/// is not the least of its class.
pub fn splits()
    ensures partition { SplitIsPartition }
    ensures refines { SplitRefines }
    ensures rank { SplitRank }
{}

/// A key on one class parts that class alone: its pairs of the least key keep its number, those of
/// the next key get the rank r, the next ones r + 1, and so on. There is something to part exactly
/// where the pairs of the class have two keys at least.
pub fn parts()
    ensures one_class { PartsOneClass }
    ensures two_keys { PartsTwoKeys }
{}

/// The meet at which a later stage starts is the named meet.
pub fn meets()
    ensures { MeetIsNamedMeet }
{}

/// A claim with a stage is accepted, or has a first bad line, with one word; never both.
pub fn verdicts()
    ensures exists { VerdictExists }
    ensures excludes { AcceptedHasNone }
    ensures unique { FirstBadLineIsUnique }
{}

/// A trace has at most 268,435,456 bytes, and a step names numbers of at most 65,535.
pub fn limits()
    ensures { AreLimits }
{}
