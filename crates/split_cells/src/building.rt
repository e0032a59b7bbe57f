//! A parting from the class of each number.

ghost use Rattle.std.specs.Prelude.{◌≡◌, ◌≢◌, ℕ, ◌+◌, ◌/◌, ◌%◌, ◌^◌, ◌<◌, ◌≤◌, IfOk, length};
ghost use Rattle.split_cells.specs.Segments.{IsParting, StandsBehind, bound_of, class_at};
ghost use Rattle.split_cells.specs.Grids.{IsUsed};
ghost use Rattle.split_cells.specs.Sorted.{IsNumbered};

use crate::partings::Parting;
use pair_colours::NoMemory;
use std::alloc::Global;
use wl_round::sorting::sorted_codes;

// Moves p from class 0 to a class, which is the newest or the next.
fn settle(parting: &mut Parting, p: u32, class: u32)
    requires parting { IsParting parting.old }
    requires inside { p < bound_of parting.old }
    requires from { class_at parting.old p ≡ 0 }
    requires other { 0 < class }
    requires near { class ≤ parting.old.rank }
    requires newest { parting.old.rank ≤ class + 1 }
    requires room { parting.old.rank ≤ bound_of parting.old }
    requires some { 0 < parting.old.rank }
    requires behind { 1 < parting.old.rank → (k : ℕ) → k + 1 ≡ parting.old.rank → StandsBehind parting.old 0 k }
    ensures parting { IsParting parting.new }
    ensures bound { bound_of parting.new ≡ bound_of parting.old }
    ensures rank { parting.new.rank ≡ class + 1 }
    ensures moved { class_at parting.new p ≡ class }
    ensures stayed { (q : ℕ) → q ≢ p → class_at parting.new q ≡ class_at parting.old q }
    ensures behind { StandsBehind parting.new 0 class }
{
    if class == parting.rank {
        parting.open(0);
    }
    parting.take_out(p, 0, class);
}

// The parting with these classes.
pub(crate) fn parted(alloc: Global, class: &[u32]) -> Result<Parting, NoMemory>
    requires some { 0 < length class.now }
    requires small { length class.now < 2 ^ 31 }
    requires numbered { IsNumbered class.now }
    ensures parting { IfOk result (λ s. IsParting s) }
    ensures class { IfOk result (λ s. s.class.items ≡ class.now) }
    ensures used { IfOk result (λ s. IsUsed s.class.items s.rank) }
{
    let mut parting = Parting::whole(alloc, class.len() as u32)?;
    let codes = sorted_codes(alloc, class)?;
    for i in 0..codes.len() {
        let code = codes[i];
        let p = (code % 0x1_0000_0000) as u32;
        let colour = (code / 0x1_0000_0000) as u32;
        let now = parting.class[p as usize];
        if now != colour {
            settle(&mut parting, p, colour);
        }
    }
    Ok(parting)
}
