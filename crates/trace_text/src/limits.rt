//! The limits of traces.

/// The most bytes of a trace.
pub const MOST_TRACE: u32 = 268_435_456;

/// The greatest number of a class that a step of a trace may name.
pub const MOST_STEP_NUMBER: u32 = 65_535;
