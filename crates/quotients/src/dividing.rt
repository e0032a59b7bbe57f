//! Quotients and subschemes.

ghost use Rattle.std.specs.Prelude.{◌≡◌, ◌↔◌, ◌<◌, ◌≤◌, IsTrue, IfOk, OnOk, IsErrOf};
ghost use Rattle.pair_colours.specs.Colouring.{FitsColouring};
ghost use Rattle.pair_colours.specs.Closure.{Coherent};
ghost use Rattle.pair_colours.specs.ColourSets.{is_in};
ghost use Rattle.pair_colours.specs.Naming.{named_of};
ghost use Rattle.quotients.specs.declared.dividing.QuotientFault.TheVariants.{NoMemory as fault_no_memory};
ghost use Rattle.pair_colours.specs.Fibres.{HasOneFibre};
ghost use Rattle.quotients.specs.Quotient.{IsClosedSubset, Quotient, Subscheme};
ghost use Rattle.quotients.specs.Steps.{AreLeasts};

use crate::classes::{is_closed, least_points};
use crate::parts::{cut_out, divided};
use pair_colours::{ColourSet, Colouring, NoMemory, has_one_fibre, is_colour_set};
use std::alloc::Global;

/// Why there is no quotient or subscheme.
#[derive(Clone, Copy, Debug, PartialEq, Eq)]
pub enum QuotientFault {
    /// The configuration has more than one fibre: two diagonal pairs have different colours.
    NotHomogeneous,
    /// The set holds a number that is no colour, or the pairs with a colour of the set form no
    /// equivalence relation on the points.
    NotClosed,
    /// The point is not below the size.
    PointRange,
    /// There is not enough memory.
    NoMemory,
}

impl From<NoMemory> for QuotientFault {
    ghost from_gives = { λ _ fault. fault ≡ fault_no_memory };

    fn from(_error: NoMemory) -> QuotientFault {
        QuotientFault::NoMemory
    }
}

/// The quotient by a closed subset. Its points are the classes in the order of their least points;
/// two pairs of classes are alike where the same colours are met between them. The set may hold a
/// colour more than once; its order does not matter. The fibres are counted before memory is taken.
pub fn quotient(alloc: Global, k: &Colouring, set: &[u32]) -> Result<Colouring, QuotientFault>
    requires coherent { Coherent k.now }
    requires named { named_of k.now ≡ k.now }
    ensures quotient { IfOk result (λ l. Quotient k.now (is_in set.now) l) }
    ensures coherent { IfOk result (λ l. Coherent l) }
    ensures good { OnOk result (IsClosedSubset k.now set.now) }
    ensures fibres { IsErrOf result QuotientFault.NotHomogeneous ↔ ¬ HasOneFibre k.now }
    ensures closed { IsErrOf result QuotientFault.NotClosed → ¬ IsClosedSubset k.now set.now }
    ensures range { ¬ IsErrOf result QuotientFault.PointRange }
{
    let leasts = leasts_of(alloc, k, set)?;
    Ok(divided(alloc, k, &leasts)?)
}

/// The subscheme on the class of x by a closed subset: the naming of k on the points of the class,
/// in rising order. The set may hold a colour more than once; its order does not matter. The fibres
/// are counted before memory is taken.
pub fn subscheme(
    alloc: Global,
    k: &Colouring,
    set: &[u32],
    x: u32,
) -> Result<Colouring, QuotientFault>
    requires coherent { Coherent k.now }
    requires named { named_of k.now ≡ k.now }
    ensures subscheme { IfOk result (λ l. Subscheme k.now (is_in set.now) x l) }
    ensures coherent { IfOk result (λ l. Coherent l) }
    ensures good { OnOk result (IsClosedSubset k.now set.now × (x < k.now.size)) }
    ensures fibres { IsErrOf result QuotientFault.NotHomogeneous ↔ ¬ HasOneFibre k.now }
    ensures closed { IsErrOf result QuotientFault.NotClosed → ¬ IsClosedSubset k.now set.now }
    ensures range { IsErrOf result QuotientFault.PointRange → IsClosedSubset k.now set.now × (k.now.size ≤ x) }
{
    let least = leasts_of(alloc, k, set)?;
    if x >= k.size() {
        return Err(QuotientFault::PointRange);
    }
    Ok(cut_out(alloc, k, &least, x)?)
}

// The least point of the class of each point, where there is one fibre and the set is closed.
pub(crate) fn leasts_of(
    alloc: Global,
    k: &Colouring,
    set: &[u32],
) -> Result<Vec<u32>, QuotientFault>
    ensures leasts { IfOk result (λ leasts. AreLeasts k.now (is_in set.now) leasts.items) }
    ensures good { OnOk result (HasOneFibre k.now × IsClosedSubset k.now set.now) }
    ensures fibres { IsErrOf result QuotientFault.NotHomogeneous ↔ ¬ HasOneFibre k.now }
    ensures closed { IsErrOf result QuotientFault.NotClosed → ¬ IsClosedSubset k.now set.now }
    ensures range { ¬ IsErrOf result QuotientFault.PointRange }
    ensures within { FitsColouring k.now }
{
    if !has_one_fibre(k) {
        return Err(QuotientFault::NotHomogeneous);
    }
    if !is_colour_set(alloc, k, set)? {
        return Err(QuotientFault::NotClosed);
    }
    let members = ColourSet::of(alloc, set)?;
    let leasts = least_points(alloc, k, &members)?;
    if !is_closed(k, &members, &leasts) {
        return Err(QuotientFault::NotClosed);
    }
    Ok(leasts)
}
