//! All fusions that begin with a prefix, or that there are too many of them.

ghost use Rattle.std.specs.Prelude.{◌≡◌, ◌==◌, ◌↔◌, ℕ, ◌-◌, ◌^◌, ◌<◌, ◌≤◌, [], true, false, None, bit_and, length, get_or, map, take, slice_index, vec_items, IfOk, IfSome, IsTrue};
ghost use Rattle.pair_colours.specs.Naming.{rank_of};
ghost use Rattle.pair_colours.specs.Those.{AreThose};
ghost use Rattle.struct_consts.specs.ClassData.{IsConfiguration};
ghost use Rattle.colour_wl.specs.Fusions.{Fuses};
ghost use Rattle.colour_wl.specs.GrowthStrings.{IsGrowth, growth_from, IsBefore};
ghost use Rattle.visitors.specs.declared.visitor.Next.TheVariants.{More};
ghost use Rattle.visitors.specs.declared.visitor.TheConstants.{MOST_SET_RANK};
ghost use Rattle.visitors.specs.Masks.{is_member};
ghost use Rattle.good_subsets.specs.Products.{IsTable};
ghost use Rattle.good_subsets.specs.Transposed.{IsTurned};
ghost use Rattle.mergings.specs.Searches.{AreHeads, AreConstant, AreByLeast, IsLeast, IsCutLike, IsExtended, CannotJoin, IsSearched, HasFound, IsRisingList};

use crate::heads::{are_sound, first_free, join, least_of, own_heads, string_of};
use crate::products::are_constant;
use good_subsets::transposes_of;
use pair_colours::NoMemory;
use std::alloc::Global;
use struct_consts::Constants;
use visitors::{Next, has_colour};

// Whether a string begins with another.
fn begins_with(string: &[u32], prefix: &[u32]) -> bool
    requires { length prefix.now ≤ length string.now }
    ensures { IsTrue result ↔ take (length prefix.now) string.now ≡ prefix.now }
{
    for i in 0..prefix.len() {
        if string[i] != prefix[i] {
            return false;
        }
    }
    true
}

// Puts the string of blocks that cover all colours on the list, if it is wanted.
fn leaf(
    alloc: Global,
    k: &Constants,
    prefix: &[u32],
    cap: usize,
    heads: &[u32],
    covered: u32,
    found: &mut Vec<Vec<u32>>,
) -> Result<Next, NoMemory>
    requires small { rank_of k.now ≤ MOST_SET_RANK }
    requires prefix { length prefix.now ≤ rank_of k.now }
    requires heads { AreHeads (rank_of k.now) heads.now covered }
    requires covered { (c : ℕ) → c < rank_of k.now → is_member covered c ≡ true }
    requires constant { AreConstant k.now heads.now covered }
    ensures searched { IfOk result (λ _. IsSearched k.now prefix.now (map vec_items found.old.items) (map vec_items found.new.items)) }
    ensures has { IfOk result (λ next. next ≡ More → HasFound k.now prefix.now heads.now covered (map vec_items found.new.items)) }
{
    let rank = k.rank();
    if !are_sound(k, heads) {
        return Ok(Next::More);
    }
    if found.len() >= cap {
        return Ok(Next::Stop);
    }
    let string = string_of(alloc, rank, heads, covered)?;
    if !begins_with(&string, prefix) {
        return Ok(Next::More);
    }
    found.push(string)?;
    Ok(Next::More)
}

// Whether the set has the colours below the length as a block with this colour of a string with this prefix has them.
fn fits_at(prefix: &[u32], set: u32, colour: usize) -> bool
    requires small { length prefix.now ≤ 16 }
    requires colour { colour < length prefix.now }
    ensures { IsCutLike prefix.now set (slice_index prefix.now colour) → IsTrue result }
{
    for other in 0..prefix.len() {
        if has_colour(set, other as u32) != (prefix[other] == prefix[colour]) {
            return false;
        }
    }
    true
}

// Whether the set may be a block of a string with this prefix.
fn fits(prefix: &[u32], set: u32) -> bool
    requires { length prefix.now ≤ 16 }
    ensures { (v : ℕ) → IsCutLike prefix.now set v → IsTrue result }
{
    for colour in 0..prefix.len() {
        if has_colour(set, colour as u32) {
            return fits_at(prefix, set, colour);
        }
    }
    true
}

// The covered colours with those of a set and of its transposes, which get their heads.
fn joined(k: &Constants, covered: u32, set: u32, head: u32, turned: u32, heads: &mut [u32]) -> u32
    requires small { rank_of k.now ≤ MOST_SET_RANK }
    requires heads { AreHeads (rank_of k.now) heads.old covered }
    requires apart { bit_and covered set ≡ 0 }
    requires least { IsLeast set head }
    requires head { head < rank_of k.now }
    requires turned { IsTurned k.now set turned }
    ensures { IsExtended k.now heads.old covered set heads.new result }
{
    let rank = k.rank();
    join(rank, set, head, heads);
    let all = covered | set;
    if all & turned != 0 {
        return all;
    }
    let other = least_of(rank, turned);
    if other == rank {
        return all;
    }
    join(rank, turned, other, heads);
    all | turned
}

// The covered colours with those of a set that may be a block beside the others, and of its
// transposes, if no test tells that it is none; more are the heads then.
fn extended(
    k: &Constants,
    table: &[u32],
    prefix: &[u32],
    heads: &[u32],
    covered: u32,
    set: u32,
    head: u32,
    more: &mut [u32],
) -> Option<u32>
    requires small { rank_of k.now ≤ MOST_SET_RANK }
    requires table { IsTable k.now table.now }
    requires prefix { length prefix.now ≤ rank_of k.now }
    requires heads { AreHeads (rank_of k.now) heads.now covered }
    requires set { set < 2 ^ rank_of k.now }
    requires least { IsLeast set head }
    requires low { head < rank_of k.now }
    requires free { is_member covered head ≡ false }
    requires more { length more.old ≡ 16 }
    ensures some { IfSome result (λ all. IsExtended k.now heads.now covered set more.new all) }
    ensures constant { IfSome result (λ all. AreConstant k.now more.new all) }
    ensures none { result ≡ None → CannotJoin k.now prefix.now heads.now covered set }
    ensures len { length more.new ≡ 16 }
{
    let _rank = k.rank();
    if covered & set != 0 {
        return None;
    }
    if !fits(prefix, set) {
        return None;
    }
    let turned = transposes_of(k, set);
    if !fits(prefix, turned) {
        return None;
    }
    more.copy_from_slice(heads);
    let all = joined(k, covered, set, head, turned, more);
    if !are_constant(k, table, more, all) {
        return None;
    }
    Some(all)
}

// The good sets with a least colour.
fn with_least(goods: &[Vec<u32>], least: u32) -> &[u32]
    requires { least < length goods.now }
    ensures { result.now ≡ get_or (map vec_items goods.now) least [] }
{
    &goods[least as usize]
}

// Puts the fusions that begin with the prefix and have the blocks on the list.
fn search(
    alloc: Global,
    k: &Constants,
    table: &[u32],
    goods: &[Vec<u32>],
    prefix: &[u32],
    cap: usize,
    from: u32,
    heads: &[u32],
    covered: u32,
    found: &mut Vec<Vec<u32>>,
) -> Result<Next, NoMemory>
    requires small { rank_of k.now ≤ MOST_SET_RANK }
    requires table { IsTable k.now table.now }
    requires goods { AreByLeast k.now (map vec_items goods.now) }
    requires prefix { length prefix.now ≤ rank_of k.now }
    requires from { from ≤ rank_of k.now }
    requires heads { AreHeads (rank_of k.now) heads.now covered }
    requires covered { (c : ℕ) → c < from → is_member covered c ≡ true }
    requires constant { AreConstant k.now heads.now covered }
    ensures searched { IfOk result (λ _. IsSearched k.now prefix.now (map vec_items found.old.items) (map vec_items found.new.items)) }
    ensures has { IfOk result (λ next. next ≡ More → HasFound k.now prefix.now heads.now covered (map vec_items found.new.items)) }
{
    let rank = k.rank();
    let free = first_free(rank, from, covered);
    if free == rank {
        return leaf(alloc, k, prefix, cap, heads, covered, found);
    }
    let sets = with_least(goods, free);
    let mut more = [0; 16];
    for i in 0..sets.len() {
        match extended(k, table, prefix, heads, covered, sets[i], free, &mut more) {
            None => {}
            Some(all) => {
                match search(
                    alloc,
                    k,
                    table,
                    goods,
                    prefix,
                    cap,
                    free + 1,
                    &more,
                    all,
                    found,
                )? {
                    Next::Stop => return Ok(Next::Stop),
                    Next::More => {}
                }
            }
        }
    }
    Ok(Next::More)
}

// Whether a string comes before another.
fn is_before(left: &[u32], right: &[u32]) -> bool
    ensures { IsTrue result → IsBefore left.now right.now }
{
    for i in 0..left.len() {
        if i >= right.len() || left[i] > right[i] {
            return false;
        }
        if left[i] < right[i] {
            return true;
        }
    }
    false
}

// Whether each string comes before the next.
fn is_rising(list: &[Vec<u32>]) -> bool
    ensures { IsTrue result → IsRisingList (map vec_items list.now) }
{
    for i in 1..list.len() {
        if !is_before(&list[i - 1], &list[i]) {
            return false;
        }
    }
    true
}

/// All fusions that begin with the prefix, in lexicographic order, or nothing where there are more
/// than `cap`.
pub(crate) fn extensions(
    alloc: Global,
    k: &Constants,
    table: &[u32],
    goods: &[Vec<u32>],
    prefix: &[u32],
    cap: usize,
) -> Result<Option<Vec<Vec<u32>>>, NoMemory>
    requires small { rank_of k.now ≤ MOST_SET_RANK }
    requires table { IsTable k.now table.now }
    requires goods { AreByLeast k.now (map vec_items goods.now) }
    requires prefix { length prefix.now ≤ rank_of k.now }
    requires growth { IsGrowth (length prefix.now) prefix.now }
    ensures { IfOk result (λ found. IfSome found (λ list. AreThose (Fuses k.now) (growth_from prefix.now (rank_of k.now - length prefix.now)) (map vec_items list.items))) }
{
    k.rank();
    let mut heads = [0; 16];
    own_heads(&mut heads);
    let mut found = Vec::new(alloc);
    match search(
        alloc, k, table, goods, prefix, cap, 0, &heads, 0, &mut found,
    )? {
        Next::Stop => Ok(None),
        Next::More => {
            found.sort()?;
            if !is_rising(&found) {
                return Ok(None);
            }
            Ok(Some(found))
        }
    }
}
