//! Steps up to a coherent partition.

ghost use Rattle.std.specs.Prelude.{OnOk};
ghost use Rattle.pair_colours.specs.Closure.{Coherent};
ghost use Rattle.wl_refine.specs.Way.{LeadsOn};

use crate::searching::{Search, settle_all};
use crate::ways::Way;
use pair_colours::NoMemory;
use std::alloc::Global;

// Goes on to a coherent partition, by a search for steps.
fn finish_by(alloc: Global, way: &mut Way, search: &mut Search) -> Result<(), NoMemory>
    ensures on { OnOk result (LeadsOn way.old way.new) }
    ensures coherent { OnOk result (Coherent way.new.cells) }
{
    settle_all(way)?;
    search.sweep(way)?;
    loop {
        match way.cells().first_fault(alloc)? {
            Some(step) => {
                way.make(step)?;
                search.sweep(way)?;
            }
            None => return Ok(()),
        }
    }
}

// Goes on to a coherent partition.
pub(crate) fn finish(alloc: Global, way: &mut Way) -> Result<(), NoMemory>
    ensures on { OnOk result (LeadsOn way.old way.new) }
    ensures coherent { OnOk result (Coherent way.new.cells) }
{
    let mut search = Search::new(alloc, way.cells())?;
    finish_by(alloc, way, &mut search)
}
