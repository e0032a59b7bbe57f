//! Laws over the definitions alone. Each is the contract of a function that does nothing.

ghost use Rattle.equitable.specs.Law.{AcceptedAreCells, AcceptedExists, CellsAreUnique, FibresLieInCells, ArcsOfSetsAreArcs, ArcsOfSetsAreTheirs, ArcSetOrNot, VerdictExists, AcceptedHasNone, FirstBadLineIsUnique, CellTextReadsOrFails, ReadingHasNoFault, ReadingIsUnique, TextIsReadBack, TextIsOfOneClaim, AcceptedHasText, AcceptedHasFewSteps, AcceptedTextFits, ReadingHasFewLines, StepsKeepNumbers};
ghost use Rattle.equitable.specs.Limits.{AreLimits};

/// The claimed cells of an accepted claim are the coarsest equitable partition of its arcs, numbered
/// by first occurrence; and all arcs have a claim that is accepted.
pub fn l11()
    ensures cells { AcceptedAreCells }
    ensures exists { AcceptedExists }
{}

/// Each fibre of the closure of a relation lies in one cell of the arcs of a set of its colours: points
/// whose diagonal pairs have one colour in the closure are in one cell.
pub fn l12()
    ensures { FibresLieInCells }
{}

/// The colouring that has the arcs of a set of colours has the numbers 0 and 1 only, and its arcs are
/// those of the set: so what is said of arcs holds of those that `cells` takes. A list of numbers chooses
/// classes, or it does not.
pub fn arcs()
    ensures bits { ArcsOfSetsAreArcs }
    ensures theirs { ArcsOfSetsAreTheirs }
    ensures or_not { ArcSetOrNot }
{}

/// There is one coarsest equitable partition that is numbered by first occurrence.
pub fn unique_cells()
    ensures { CellsAreUnique }
{}

/// After steps that may be made from the partition with one cell on, the numbers of the cells are those
/// below their count.
pub fn numbers()
    ensures { StepsKeepNumbers }
{}

/// A claim is accepted, or has a first bad line, with one word; never both.
pub fn verdicts()
    ensures exists { VerdictExists }
    ensures excludes { AcceptedHasNone }
    ensures unique { FirstBadLineIsUnique }
{}

/// Each text is that of exactly one claim and has no fault, or has a fault and is that of none; and
/// what is written of a claim reads back, so that two claims with one text are equal. An accepted
/// claim has a text, and a claim that is read has no more lines than its text has bytes.
pub fn texts()
    ensures reads_or_fails { CellTextReadsOrFails }
    ensures no_fault { ReadingHasNoFault }
    ensures unique { ReadingIsUnique }
    ensures read_back { TextIsReadBack }
    ensures one_claim { TextIsOfOneClaim }
    ensures accepted { AcceptedHasText }
    ensures few_lines { ReadingHasFewLines }
{}

/// An accepted claim has fewer steps than points, and so its text has few lines, and is within the limit.
pub fn sizes()
    ensures steps { AcceptedHasFewSteps }
    ensures text { AcceptedTextFits }
{}

/// Numbers of cells are at most 255 in a text, which has at most 1,048,576 bytes.
pub fn limits()
    ensures { AreLimits }
{}
