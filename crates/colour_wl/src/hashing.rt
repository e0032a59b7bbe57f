//! Rounds by hashing: each class gets a word, and classes of one block with two words are parted.
//!
//! The word of a class is a sum over its structure constants, so classes that are alike have one
//! word, and each split is forced. Two classes that are not alike may have one word by chance, and
//! then stay together: whether that has happened only the exact round can say.

ghost use Rattle.std.specs.Prelude.{◌≡◌, ◌%◌, ◌^◌, ◌<◌, IfOk, sum_by};
ghost use Rattle.pair_colours.specs.Naming.{rank_of};
ghost use Rattle.pair_colours.specs.IntersectionNumber.{pair_of_class};
ghost use Rattle.pair_colours.specs.SideCodes.{side_codes};
ghost use Rattle.struct_consts.specs.ClassData.{IsConfiguration};
ghost use Rattle.colour_wl.specs.Fusions.{merge};
ghost use Rattle.colour_wl.specs.GrowthStrings.{IsGrowth};
ghost use Rattle.colour_wl.specs.Rounds.{IsForcedRound};
ghost use Rattle.colour_wl.specs.Words.{mix, pair_key};

use indexmap::IndexSet;
use pair_colours::{NoMemory, pair_code};
use std::alloc::Global;
use struct_consts::Constants;

// The odd number next to 2^64 divided by the golden ratio (Knuth, The Art of Computer Programming 3,
// section 6.4).
const MULTIPLIER: u64 = 0x9E37_79B9_7F4A_7C15;

// The word of a code.
fn mixed(code: u64) -> u64
    ensures { result ≡ mix code }
{
    let product = code.wrapping_mul(MULTIPLIER);
    let upper = product >> 32;
    upper.wrapping_mul(upper).wrapping_mul(product)
}

// The words of the sides of all triangles over a pair of the class, added up.
fn triangle_word(k: &Constants, a: &[u32], class: u32) -> u64
    requires configuration { IsConfiguration k.now }
    requires string { IsGrowth (rank_of k.now) a.now }
    requires class { class < rank_of k.now }
    ensures { result ≡ sum_by mix (side_codes (merge k.now a.now) (pair_of_class k.now class).0 (pair_of_class k.now class).1) % 2 ^ 64 }
{
    let entries = k.entries(class);
    let mut sum: u64 = 0;
    for i in 0..entries.len() {
        let entry = entries[i];
        let word = mixed(pair_code(a[entry.left as usize], a[entry.right as usize]));
        sum = sum.wrapping_add(u64::from(entry.count).wrapping_mul(word));
    }
    sum
}

// The number of the class, with the upper half of its word.
fn class_key(k: &Constants, a: &[u32], class: u32) -> u64
    requires configuration { IsConfiguration k.now }
    requires string { IsGrowth (rank_of k.now) a.now }
    requires class { class < rank_of k.now }
    ensures { result ≡ pair_key (merge k.now a.now) (pair_of_class k.now class).0 (pair_of_class k.now class).1 }
{
    let (x, y) = k.pair(class);
    let turned = pair_code(a[k.transpose(class) as usize], u32::from(x == y));
    let word = triangle_word(k, a, class).wrapping_add(mixed(turned));
    pair_code(a[class as usize], (word >> 32) as u32)
}

// The growth string that parts the classes of a block that have two words.
pub(crate) fn hashed_round(alloc: Global, k: &Constants, a: &[u32]) -> Result<Vec<u32>, NoMemory>
    requires { IsGrowth (rank_of k.now) a.now }
    ensures growth { IfOk result (λ next. IsGrowth (rank_of k.now) next.items) }
    ensures within { IfOk result (λ _. IsConfiguration k.now) }
    ensures round { IfOk result (λ next. IsForcedRound (merge k.now a.now) (merge k.now next.items)) }
{
    let rank = k.rank();
    let mut next = Vec::with_capacity(alloc, rank as usize)?;
    let mut seen: IndexSet<u64> = IndexSet::new(alloc);
    for class in 0..rank {
        let (number, _) = seen.insert_full(class_key(k, a, class))?;
        next.push(number as u32)?;
    }
    Ok(next)
}
