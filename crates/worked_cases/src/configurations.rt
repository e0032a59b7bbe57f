//! Closures and configurations of matrices.

ghost use Rattle.std.specs.Prelude.{IfOk};
ghost use Rattle.pair_colours.specs.Closure.{IsClosureOf};

use crate::fixtures::{read, same_numbers};
use pair_colours::{Colouring, NoMemory};
use std::alloc::Global;
use std::process::Abort;
use std::test::Fail;
use struct_consts::Constants;
use wl_refine::close;

/// Five points, of which two are one fibre: it has 17 colours.
pub(crate) const SEVENTEEN_COLOURS: &[u8] =
    b"matrix 5\n0 4 5 6 6\n7 1 8 9 9\n10 11 2 12 12\n13 14 15 3 16\n13 14 15 16 3\n";

/// Two points, each a fibre of its own.
pub(crate) const TWO_FIBRES: &[u8] = b"matrix 2\n0 2\n3 1\n";

/// One point.
pub(crate) const ONE_POINT: &[u8] = b"matrix 1\n0\n";

/// The closure of a colouring.
pub(crate) fn closure_of(alloc: Global, raw: &Colouring) -> Result<Colouring, NoMemory>
    ensures { IfOk result (λ closure. IsClosureOf closure raw.now) }
{
    let closed = close(alloc, raw)?;
    Ok(closed.matrix)
}

/// The configuration with this matrix, which is its own closure.
pub(crate) fn configuration(
    rt: &(impl Abort + AllocGlobal),
    matrix: &[u8],
) -> Result<Constants, Fail> {
    let raw = read(rt, matrix, 1)?;
    let closure = closure_of(rt.alloc(), &raw)?;
    same_numbers(rt, closure.colours(), raw.colours());
    Ok(Constants::of(rt.alloc(), &closure)?)
}
