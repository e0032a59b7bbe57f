//! The naming walk over the pairs of points, pair by pair.

ghost use Rattle.std.specs.Prelude.{◌≡◌, ◌*◌, ◌<◌, slice_get, Some};
ghost use Rattle.pair_colours.specs.Naming.{walk};

/// The pair at a place of the naming walk, which goes over the diagonal pairs and then over the
/// others row by row. The places are the numbers below `size * size`.
pub fn pair_on_walk(size: u32, place: u32) -> (u32, u32)
    requires { place < size * size }
    ensures pair { slice_get (walk size) place ≡ Some result }
    ensures row { result.0 < size }
    ensures column { result.1 < size }
{
    if place < size {
        return (place, place);
    }
    let row = (place - size) / (size - 1);
    let before = (place - size) % (size - 1);
    if before < row {
        (row, before)
    } else {
        (row, before + 1)
    }
}
