//! Laws over the definitions alone. Each is the contract of a function that does nothing.

ghost use Rattle.closed_subsets.specs.Closedness.{ClosedByConstants};

/// A set of colours is closed exactly where it has each diagonal class, with each class its
/// transpose, and with each two classes all classes of their product.
pub fn closed_by_constants()
    ensures { ClosedByConstants }
{}
