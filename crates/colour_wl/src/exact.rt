//! Exact rounds of the refinement on colours: a class is parted from another of its block by what
//! the structure constants say of it.

ghost use Rattle.std.specs.Prelude.{◌≡◌, ◌<◌, IfOk};
ghost use Rattle.std.specs.List.Sorted.{IsPermutation};
ghost use Rattle.pair_colours.specs.Naming.{rank_of};
ghost use Rattle.pair_colours.specs.IntersectionNumber.{pair_of_class};
ghost use Rattle.pair_colours.specs.Rounds.{IsRound};
ghost use Rattle.pair_colours.specs.SideCodes.{side_codes};
ghost use Rattle.struct_consts.specs.ClassData.{IsConfiguration};
ghost use Rattle.colour_wl.specs.Signature.{IsSignature};
ghost use Rattle.colour_wl.specs.Fusions.{merge};
ghost use Rattle.colour_wl.specs.GrowthStrings.{IsGrowth};

use indexmap::IndexSet;
use pair_colours::{NoMemory, pair_code};
use std::alloc::Global;
use struct_consts::Constants;

// How many numbers a signature has behind the codes.
const MARKS: usize = 3;

// The numbers of the two sides of each triangle over a pair of the class, as codes.
fn side_numbers(alloc: Global, k: &Constants, a: &[u32], class: u32) -> Result<Vec<u64>, NoMemory>
    requires configuration { IsConfiguration k.now }
    requires string { IsGrowth (rank_of k.now) a.now }
    requires class { class < rank_of k.now }
    ensures { IfOk result (λ codes. IsPermutation (side_codes (merge k.now a.now) (pair_of_class k.now class).0 (pair_of_class k.now class).1) codes.items) }
{
    let points = k.colouring().size() as usize;
    let mut codes = Vec::with_capacity(alloc, points + MARKS)?;
    let entries = k.entries(class);
    for i in 0..entries.len() {
        let entry = entries[i];
        let code = pair_code(a[entry.left as usize], a[entry.right as usize]);
        for _j in 0..entry.count {
            codes.push(code)?;
        }
    }
    Ok(codes)
}

// What decides which classes of a block stay together, as a list.
fn signature(alloc: Global, k: &Constants, a: &[u32], class: u32) -> Result<Vec<u64>, NoMemory>
    requires configuration { IsConfiguration k.now }
    requires string { IsGrowth (rank_of k.now) a.now }
    requires class { class < rank_of k.now }
    ensures { IfOk result (λ s. IsSignature (merge k.now a.now) (pair_of_class k.now class).0 (pair_of_class k.now class).1 s.items) }
{
    let mut codes = side_numbers(alloc, k, a, class)?;
    codes.sort_unstable();
    let (x, y) = k.pair(class);
    codes.push(u64::from(x == y))?;
    codes.push(u64::from(a[class as usize]))?;
    codes.push(u64::from(a[k.transpose(class) as usize]))?;
    Ok(codes)
}

// The growth string that numbers the classes by their signatures.
pub(crate) fn exact_round(alloc: Global, k: &Constants, a: &[u32]) -> Result<Vec<u32>, NoMemory>
    requires { IsGrowth (rank_of k.now) a.now }
    ensures growth { IfOk result (λ next. IsGrowth (rank_of k.now) next.items) }
    ensures within { IfOk result (λ _. IsConfiguration k.now) }
    ensures round { IfOk result (λ next. IsRound (merge k.now a.now) (merge k.now next.items)) }
{
    let mut next = Vec::with_capacity(alloc, a.len())?;
    let mut seen: IndexSet<Vec<u64>> = IndexSet::new(alloc);
    for class in 0..k.rank() {
        let own = signature(alloc, k, a, class)?;
        let (number, _) = seen.insert_full(own)?;
        next.push(number as u32)?;
    }
    Ok(next)
}
