//! Laws over the definitions alone. Each is the contract of a function that does nothing.

ghost use Rattle.relation_text.specs.Law.{ReadsOrFails, ReadingHasNoFault, FaultHasNoReading, ReadingIsUnique, ReadingIsRaw, GraphIsReadBack, DigraphIsReadBack};
ghost use Rattle.relation_text.specs.Limits.{AreLimits};

/// At each line, counted from 1, a text has exactly one reading and no fault, or exactly one fault
/// and no reading.
pub fn l8()
    ensures reads_or_fails { ReadsOrFails }
    ensures no_fault { ReadingHasNoFault }
    ensures no_reading { FaultHasNoReading }
    ensures unique { ReadingIsUnique }
{}

/// What is read is raw: a colouring of at most `MOST_POINTS` points, with colours up to
/// `MOST_COLOUR`.
pub fn readings_are_raw()
    ensures { ReadingIsRaw }
{}

/// What is written of a graph or of a digraph is read back as the graph of the chosen colours: an
/// edge or an arc for each pair with one of them.
pub fn read_back()
    ensures graph { GraphIsReadBack }
    ensures digraph { DigraphIsReadBack }
{}

/// A relation text has at most 4,194,304 bytes.
pub fn limits()
    ensures { AreLimits }
{}
