//! Laws over the definitions alone. Each is the contract of a function that does nothing.

ghost use Rattle.cohere_inputs.specs.Law.{NoneOrFirstBad, NoneIsFirst, FirstBadIsUnique, InputsExist, InputsAreGood, TraceHasFewLines};
ghost use Rattle.cohere_inputs.specs.Limits.{AreLimits};

/// Of the files that are loaded for a task none is bad, or one is the first bad one, and never both;
/// and there is one first bad file at most, with one fault.
pub fn first_bad()
    ensures none_or_first { NoneOrFirstBad }
    ensures not_both { NoneIsFirst }
    ensures unique { FirstBadIsUnique }
{}

/// No file of a run is bad exactly where they are a relation, a script, and a relation for each of
/// its products.
pub fn inputs()
    ensures exist { InputsExist }
    ensures are_good { InputsAreGood }
{}

/// A claim that stands in a text within the limit of a trace has fewer than 2^32 lines.
pub fn short_traces()
    ensures { TraceHasFewLines }
{}

/// The numbers of the limits.
pub fn limits()
    ensures { AreLimits }
{}
