//! Laws over the definitions alone. Each is the contract of a function that does nothing.

ghost use Rattle.scheme_demo.specs.Law.{DemoRelationIsRaw, DemoLinesAreScript};

/// The relation of every number is within the limits of points and of raw colours, and the lines are
/// a script.
pub fn demo()
    ensures relation { DemoRelationIsRaw }
    ensures lines { DemoLinesAreScript }
{}
