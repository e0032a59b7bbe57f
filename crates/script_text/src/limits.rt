//! The limits of scripts.

/// The most bytes of a script.
pub const MOST_SCRIPT: u32 = 1_048_576;

/// The most lines of a script, blank lines and comments counted.
pub const MOST_LINES: u32 = 10_000;

/// The most lines of a script that multiply by the relation of a file.
pub const MOST_PRODUCTS: u32 = 64;

/// The most fusions that one line may ask for.
pub const MOST_MERGINGS: u32 = 10_000;
