//! Fibres, the classes of diagonal pairs.

ghost use Rattle.std.specs.Prelude.{◌↔◌, IsTrue};
ghost use Rattle.pair_colours.specs.Colouring.{FitsColouring};
ghost use Rattle.pair_colours.specs.Fibres.{HasOneFibre};

use crate::coloured_pairs::Colouring;

/// Whether all diagonal pairs have one colour.
pub fn has_one_fibre(colouring: &Colouring) -> bool
    ensures answer { IsTrue result ↔ HasOneFibre colouring.now }
    ensures within { FitsColouring colouring.now }
{
    let size = colouring.size();
    let first = colouring.get(0, 0);
    for x in 0..size {
        if colouring.get(x, x) != first {
            return false;
        }
    }
    true
}
