//! Laws over the definitions alone. Each is the contract of a function that does nothing.

ghost use Rattle.visitors.specs.Limits.{AreLimits};

/// The numbers of the limits.
pub fn limits()
    ensures { AreLimits }
{}
