//! Laws over the definitions alone. Each is the contract of a function that does nothing.

ghost use Rattle.script_text.specs.Limits.{AreLimits};
ghost use Rattle.script_text.specs.Script.{FaultHasNoScript, ScriptHasNoFault, ScriptIsUnique, ScriptOrFault};

/// Each text is exactly one script, or has exactly one fault, and never both: whatever its bytes
/// are, either one list of lines is its script and no line has a fault, or some line has one, and
/// then no list of lines is its script.
pub fn l8()
    ensures unique { ScriptIsUnique }
    ensures script_or_fault { ScriptOrFault }
    ensures no_fault { ScriptHasNoFault }
    ensures no_script { FaultHasNoScript }
{}

/// A script has at most 1,048,576 bytes, 10,000 lines and 64 product lines, and one line asks for
/// at most 10,000 fusions.
pub fn limits()
    ensures { AreLimits }
{}
