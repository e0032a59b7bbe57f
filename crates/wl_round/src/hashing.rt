//! A number for each pair of points: pairs that are alike have one number.
//!
//! Each colour has a word for where it stands on the left side of a triangle, one for the right side
//! and one for the transposed pair. The products of the words of the two sides are added up over all
//! triangles on a pair, so that their order does not count. The sum is taken modulo 2^64, and its
//! upper half joined with the other word.

ghost use Rattle.std.specs.Prelude.{◌≡◌, ℕ, ◌+◌, ◌*◌, ◌/◌, ◌%◌, ◌^◌, ◌<◌, ◌≤◌, IfOk, length, slice_index};
ghost use Rattle.pair_colours.specs.declared.coloured_pairs.TheConstants.{MOST_POINTS};
ghost use Rattle.wl_round.specs.Hashes.{AreWords, HasWords, IsRowHashed, KeepsTogether, dot, hash_from};

use crate::transposing::transposed;
use pair_colours::{Colouring, NoMemory};
use std::alloc::Global;

// What is added on the diagonal.
const DIAGONAL: u32 = 0x9FB2_1C65;

// Where the words of left sides, of right sides and of transposed pairs begin.
const LEFT: u64 = 0x2545_F491_4F6C_DD1D;

const RIGHT: u64 = 0x6A09_E667_F3BC_C908;

const TURNED: u64 = 0xBB67_AE85_84CA_A73B;

// The upper half of a word.
fn upper_half(word: u64) -> u32
    ensures { result ≡ word / 2 ^ 32 }
{
    (word / 0x1_0000_0000) as u32
}

// A word in which each bit of a number counts (splitmix64), made odd. Nothing is promised of it.
fn mixed(number: u64) -> u32 {
    let first = number ^ (number >> 30);
    let second = first.wrapping_mul(0xBF58_476D_1CE4_E5B9);
    let third = (second ^ (second >> 27)).wrapping_mul(0x94D0_49BB_1331_11EB);
    upper_half(third ^ (third >> 31)) | 1
}

// A word for each number below a bound. Nothing else is promised of them.
fn words_below(alloc: Global, bound: u32, seed: u64) -> Result<Vec<u32>, NoMemory>
    ensures { IfOk result (λ words. length words.items ≡ bound) }
{
    let mut words = Vec::with_capacity(alloc, bound as usize)?;
    let mut state = seed;
    for _ in 0..bound {
        state = state.wrapping_add(0x9E37_79B9_7F4A_7C15);
        words.push(mixed(state))?;
    }
    Ok(words)
}

// The words of the numbers of a list.
fn laid_out(alloc: Global, numbers: &[u32], words: &[u32]) -> Result<Vec<u32>, NoMemory>
    requires { (p : ℕ) → p < length numbers.now → slice_index numbers.now p < length words.now }
    ensures { IfOk result (λ laid. HasWords numbers.now words.now laid.items) }
{
    let mut laid = Vec::with_capacity(alloc, numbers.len())?;
    for p in 0..numbers.len() {
        laid.push(words[numbers[p] as usize])?;
    }
    Ok(laid)
}

// The words of all pairs: as left sides, as right sides column by column, and transposed.
#[derive(Drop)]
struct Words {
    lefts: Vec<u32>,
    rights: Vec<u32>,
    turned: Vec<u32>,
}

// The words of the pairs of a colouring.
fn words_of(alloc: Global, colouring: &Colouring) -> Result<Words, NoMemory>
    requires { (p : ℕ) → p < length colouring.now.colours → slice_index colouring.now.colours p < length colouring.now.colours }
    ensures { IfOk result (λ words. AreWords colouring.now words.lefts.items words.rights.items words.turned.items) }
{
    let size = colouring.size();
    let columns = transposed(alloc, size, colouring.colours())?;
    let left = words_below(alloc, size * size, LEFT)?;
    let lefts = laid_out(alloc, colouring.colours(), &left)?;
    let right = words_below(alloc, size * size, RIGHT)?;
    let rights = laid_out(alloc, &columns, &right)?;
    let over = words_below(alloc, size * size, TURNED)?;
    let turned = laid_out(alloc, &columns, &over)?;
    Ok(Words {
        lefts,
        rights,
        turned,
    })
}

// Row x of a matrix of words.
fn row_of(size: u32, words: &[u32], x: u32) -> &[u32]
    requires limit { size ≤ MOST_POINTS }
    requires len { length words.now ≡ size * size }
    requires row { x < size }
    ensures len { length result.now ≡ size }
    ensures entries { (z : ℕ) → z < size → slice_index result.now z ≡ slice_index words.now (x * size + z) }
{
    &words[(x * size) as usize..(x * size + size) as usize]
}

// The sum of the products of the words of two lists.
fn dot(left: &[u32], right: &[u32]) -> u64
    requires { length left.now ≡ length right.now }
    ensures { result ≡ dot left.now right.now % 2 ^ 64 }
{
    let mut sum = 0u64;
    for z in 0..left.len() {
        sum = sum.wrapping_add(u64::from(left[z]).wrapping_mul(u64::from(right[z])));
    }
    sum
}

// The upper half of the sum over the sides of a pair, with the other words.
fn hash_from(sides: u64, turned: u32, diagonal: bool) -> u32
    ensures { result ≡ hash_from sides turned diagonal }
{
    let own = if diagonal { DIAGONAL } else { 0 };
    upper_half(sides).wrapping_add(turned).wrapping_add(own)
}

// Gives the pairs from x their hashes.
fn hash_row(words: &Words, hashes: &mut Colouring, x: u32)
    requires lefts { length words.now.lefts.items ≡ hashes.old.size * hashes.old.size }
    requires rights { length words.now.rights.items ≡ hashes.old.size * hashes.old.size }
    requires turned { length words.now.turned.items ≡ hashes.old.size * hashes.old.size }
    requires row { x < hashes.old.size }
    ensures { IsRowHashed words.now.lefts.items words.now.rights.items words.now.turned.items x hashes.old hashes.new }
{
    let size = hashes.size();
    let left = row_of(size, &words.lefts, x);
    let turned = row_of(size, &words.turned, x);
    for y in 0..size {
        let sides = dot(left, row_of(size, &words.rights, y));
        hashes.set(x, y, hash_from(sides, turned[y as usize], x == y));
    }
}

// A colouring in which pairs that are alike have one colour, and few others have.
pub(crate) fn hashed(alloc: Global, colouring: &Colouring) -> Result<Colouring, NoMemory>
    requires { (p : ℕ) → p < length colouring.now.colours → slice_index colouring.now.colours p < length colouring.now.colours }
    ensures { IfOk result (KeepsTogether colouring.now) }
{
    let size = colouring.size();
    let words = words_of(alloc, colouring)?;
    let mut hashes = Colouring::new(alloc, size, 0)?;
    for x in 0..size {
        hash_row(&words, &mut hashes, x);
    }
    Ok(hashes)
}
