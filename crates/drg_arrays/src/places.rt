//! The first place of each distance, and the first place whose counts are not those of that one.

ghost use Rattle.std.specs.Prelude.{◌≡◌, ◌+◌, ◌<◌, ◌≤◌, ℕ, IfOk, IfSome, IfNone, All, length};
ghost use Rattle.drg_arrays.specs.Tables.{AreFirstPlaces, IsAlikeAt, IsFirstUnlike};

use crate::counts::Counts;
use pair_colours::NoMemory;
use std::alloc::Global;

// The first place of each number of a table of numbers below the limit.
pub(crate) fn first_places(
    alloc: Global,
    table: &[u32],
    limit: usize,
) -> Result<Vec<usize>, NoMemory>
    requires { All (λ number. number < limit) table.now }
    ensures len { IfOk result (λ firsts. length firsts.items ≡ limit) }
    ensures at { IfOk result (λ firsts. AreFirstPlaces table.now firsts.items) }
{
    let mut firsts = vec![in alloc; 0; limit]?;
    for place in (0..table.len()).rev() {
        firsts[table[place] as usize] = place;
    }
    Ok(firsts)
}

// The first place whose counts are not those of the first place with the same distance.
pub(crate) fn first_unlike(distances: &[u32], firsts: &[usize], counts: &Counts) -> Option<usize>
    requires places { AreFirstPlaces distances.now firsts.now }
    requires small { All (λ distance. distance < length firsts.now) distances.now }
    requires nearer { length counts.now.nearer.items ≡ length distances.now }
    requires farther { length counts.now.farther.items ≡ length distances.now }
    ensures some { IfSome result
        (IsFirstUnlike distances.now firsts.now counts.now.nearer.items counts.now.farther.items) }
    ensures none { IfNone result ((k : ℕ) → k < length distances.now
        → IsAlikeAt distances.now firsts.now counts.now.nearer.items counts.now.farther.items k) }
{
    for place in 0..distances.len() {
        let first = firsts[distances[place] as usize];
        if counts.nearer[place] != counts.nearer[first]
            || counts.farther[place] != counts.farther[first]
        {
            return Some(place);
        }
    }
    None
}
