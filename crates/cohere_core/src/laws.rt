//! Laws over the definitions alone. Each is the contract of a function that does nothing.

ghost use Rattle.cohere_core.specs.Law.{TaskHasOutput, OutputExists, RunExists, OutputsAgree, RunsAgree, OutputIsUnique, RunIsUnique, TraceShowsClosure, TraceIsChecked, DemoExists, DemoIsUnique};

/// Each task has an output where no file that is loaded for it is bad. So what holds of the output of
/// `run` says something of every form of words.
pub fn tasks()
    ensures { TaskHasOutput }
{}

/// Every script has an output over every relation, and its lines lead on from every history, as
/// from the one where a session stopped. Its outputs differ in the steps of traces of version 1 alone:
/// answer by answer they are equal, and two such traces claim one closure, by chains of the same
/// colours. Where no line asks for one, there is only one output. So too for the answers from alike
/// histories, which lead to alike histories.
pub fn outputs()
    ensures exist { OutputExists }
    ensures from_everywhere { RunExists }
    ensures agree { OutputsAgree }
    ensures alike { RunsAgree }
    ensures unique { OutputIsUnique }
    ensures alike_unique { RunIsUnique }
{}

/// Each trace that a script shows is the text of a claim that is accepted, and that claims the
/// closure of the present colouring. It is within the limit of a trace, so that a check of a file
/// that holds it ends with `Done`, unless the machine fails.
pub fn traces()
    ensures shows { TraceShowsClosure }
    ensures checked { TraceIsChecked }
{}

/// The demonstration of each number has exactly one output.
pub fn demonstrations()
    ensures exist { DemoExists }
    ensures unique { DemoIsUnique }
{}
