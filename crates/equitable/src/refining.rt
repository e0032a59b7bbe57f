//! The coarsest equitable partition of the arcs of a set of colours.

ghost use Rattle.std.specs.Prelude.{◌≡◌, OnOk, IfOk, IsErrOf};
ghost use Rattle.pair_colours.specs.Closure.{IsClosureOf};
ghost use Rattle.pair_colours.specs.Colouring.{PairColouring, FitsColouring};
ghost use Rattle.equitable.specs.Equitable.{IsCells, IsEquitable, LiesOverFibres};
ghost use Rattle.equitable.specs.Arcs.{IsArcSet, arcs_of};
ghost use Rattle.equitable.specs.Acceptance.{AcceptsCells, IsReached};
ghost use Rattle.equitable.specs.ClaimText.{HasCellText};

use crate::arc_sets::{arcs_of, is_arc_set};
use crate::cell_claims::CellClaim;
use crate::cell_faults::CellFault;
use crate::cell_steps::CellSteps;
use crate::odd_steps::odd_step;
use crate::partition::Partition;
use crate::waiting_cells::part_all;
use pair_colours::{Colouring, NoMemory};
use std::alloc::Global;

/// A claim that is accepted, with the arcs of a set of colours: its cells are the coarsest equitable
/// partition, and each fibre of the closure of the relation lies in one of them. The set may hold a
/// colour more than once; its order does not matter. The claim has a text, which is within the limit
/// (`laws::sizes`).
pub fn cells(alloc: Global, relation: &Colouring, set: &[u32]) -> Result<CellClaim, CellFault>
    ensures accepted { IfOk result AcceptsCells }
    ensures arcs { IfOk result (λ claim. claim.arcs ≡ arcs_of relation.now set.now) }
    ensures cells { IfOk result (λ claim. IsCells (arcs_of relation.now set.now) claim.cells) }
    ensures fibres { IfOk result (λ claim. (K : PairColouring) → IsClosureOf K relation.now → LiesOverFibres K claim.cells) }
    ensures text { IfOk result HasCellText }
    ensures good { OnOk result (IsArcSet relation.now set.now) }
    ensures bad { IsErrOf result CellFault.BadSet → ¬ IsArcSet relation.now set.now }
{
    let good = is_arc_set(alloc, relation, set)?;
    if !good {
        return Err(CellFault::BadSet);
    }
    let arcs = arcs_of(alloc, relation, set)?;
    Ok(refined(alloc, arcs)?)
}

// Makes steps until the partition is equitable.
fn finish(
    alloc: Global,
    arcs: &Colouring,
    partition: &mut Partition,
    steps: &mut CellSteps,
) -> Result<(), NoMemory>
    requires fits { FitsColouring arcs.now }
    requires reached { IsReached arcs.now partition.old steps.old }
    ensures reached { OnOk result (IsReached arcs.now partition.new steps.new) }
    ensures equitable { OnOk result (IsEquitable arcs.now partition.new) }
{
    while let Some(step) = odd_step(alloc, arcs, partition)? {
        partition.split(alloc, arcs, step)?;
        steps.push(step)?;
    }
    Ok(())
}

// A claim with these arcs that is accepted.
fn refined(alloc: Global, arcs: Colouring) -> Result<CellClaim, NoMemory>
    ensures accepted { IfOk result AcceptsCells }
    ensures arcs { IfOk result (λ claim. claim.arcs ≡ arcs) }
{
    let mut partition = Partition::one_cell(alloc, arcs.size())?;
    let mut steps = CellSteps::new(alloc);
    part_all(alloc, &arcs, &mut partition, &mut steps)?;
    finish(alloc, &arcs, &mut partition, &mut steps)?;
    let cells = partition.numbered(alloc)?;
    Ok(CellClaim { arcs, steps, cells })
}
