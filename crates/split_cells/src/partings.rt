//! Numbered classes, each a segment of one list.

ghost use Rattle.std.specs.Prelude.{◌≡◌, ◌≢◌, ℕ, ◌+◌, ◌-◌, ◌*◌, ◌^◌, ◌<◌, ◌≤◌, IfOk, [], length, replicate, slice_index, slice_set};
ghost use Rattle.std.specs.List.{range_with_len};
ghost use Rattle.split_cells.specs.Segments.{IsMembers, IsParting, StandsBehind, bound_of, class_at, first_of, stands_at};
ghost use Rattle.split_cells.specs.Grids.{HasMember};

use pair_colours::NoMemory;
use std::alloc::Global;

// The numbers below a bound, parted into classes: `order` lists them class by class, `place` says
// where each stands, and class k is the segment of `len[k]` numbers from `start[k]` on.
#[derive(Drop)]
pub(crate) struct Parting {
    pub(crate) class: Vec<u32>,
    pub(crate) order: Vec<u32>,
    pub(crate) place: Vec<u32>,
    pub(crate) start: Vec<u32>,
    pub(crate) len: Vec<u32>,
    pub(crate) rank: u32,
}

// A list of zeros.
pub(crate) fn zeros(alloc: Global, len: u32) -> Result<Vec<u32>, NoMemory>
    ensures { IfOk result (λ v. v.items ≡ replicate len 0) }
{
    let zeros = vec![in alloc; 0; len as usize]?;
    Ok(zeros)
}

// The numbers below a bound.
pub(crate) fn numbers_below(alloc: Global, bound: u32) -> Result<Vec<u32>, NoMemory>
    ensures { IfOk result (λ v. v.items ≡ range_with_len 0 bound) }
{
    let mut numbers = Vec::with_capacity(alloc, bound as usize)?;
    for k in 0..bound {
        numbers.push(k)?;
    }
    Ok(numbers)
}

impl Parting {
    // One class of the numbers below `bound`.
    pub(crate) fn whole(alloc: Global, bound: u32) -> Result<Parting, NoMemory>
        requires some { 0 < bound }
        requires small { bound < 2 ^ 31 }
        ensures parting { IfOk result (λ s. IsParting s) }
        ensures bound { IfOk result (λ s. bound_of s ≡ bound) }
        ensures rank { IfOk result (λ s. s.rank ≡ 1) }
        ensures class { IfOk result (λ s. s.class.items ≡ replicate bound 0) }
    {
        let order = numbers_below(alloc, bound)?;
        let place = Vec::from_slice(alloc, &order)?;
        let class = zeros(alloc, bound)?;
        let start = zeros(alloc, bound + 1)?;
        let mut len = zeros(alloc, bound + 1)?;
        len[0] = bound;
        Ok(Parting {
            class,
            order,
            place,
            start,
            len,
            rank: 1,
        })
    }

    // The members of class k.
    pub(crate) fn members(&self, k: u32) -> &[u32]
        requires parting { IsParting self.now }
        requires class { k < self.now.rank }
        ensures members { IsMembers self.now.class.items k (stands_at self.now k) result.now }
        ensures len { length result.now ≡ slice_index self.now.len.items k }
    {
        let from = self.start[k as usize] as usize;
        let len = self.len[k as usize] as usize;
        &self.order[from..from + len]
    }

    // The first member of class k.
    pub(crate) fn first(&self, k: u32) -> u32
        requires parting { IsParting self.now }
        requires class { k < self.now.rank }
        requires member { HasMember self.now.class.items k }
        ensures first { result ≡ first_of self.now k }
        ensures inside { result < bound_of self.now }
        ensures class { class_at self.now result ≡ k }
    {
        self.order[self.start[k as usize] as usize]
    }

    // A new class without members, right behind class k.
    pub(crate) fn open(&mut self, k: u32) -> u32
        requires parting { IsParting self.old }
        requires class { k < self.old.rank }
        requires room { self.old.rank ≤ bound_of self.old }
        ensures number { result ≡ self.old.rank }
        ensures rank { self.new.rank ≡ self.old.rank + 1 }
        ensures parting { IsParting self.new }
        ensures bound { bound_of self.new ≡ bound_of self.old }
        ensures same { self.new.class.items ≡ self.old.class.items }
        ensures behind { StandsBehind self.new k result }
    {
        let new = self.rank;
        self.start[new as usize] = self.start[k as usize] + self.len[k as usize];
        self.len[new as usize] = 0;
        self.rank = new + 1;
        new
    }

    // Lets p change places with the last member of its class k.
    pub(crate) fn put_last(&mut self, p: u32, k: u32)
        requires parting { IsParting self.old }
        requires inside { p < bound_of self.old }
        requires class { class_at self.old p ≡ k }
        ensures parting { IsParting self.new }
        ensures bound { bound_of self.new ≡ bound_of self.old }
        ensures classes { self.new.class.items ≡ self.old.class.items }
        ensures starts { self.new.start.items ≡ self.old.start.items }
        ensures lens { self.new.len.items ≡ self.old.len.items }
        ensures rank { self.new.rank ≡ self.old.rank }
        ensures last { slice_index self.new.place.items p + 1 ≡ slice_index self.new.start.items k + slice_index self.new.len.items k }
    {
        let last = self.start[k as usize] + self.len[k as usize] - 1;
        let from = self.place[p as usize];
        let other = self.order[last as usize];
        self.order[from as usize] = other;
        self.order[last as usize] = p;
        self.place[other as usize] = from;
        self.place[p as usize] = last;
    }

    // Moves p from class k to class `new`, which stands right behind it.
    pub(crate) fn take_out(&mut self, p: u32, k: u32, new: u32)
        requires parting { IsParting self.old }
        requires inside { p < bound_of self.old }
        requires class { class_at self.old p ≡ k }
        requires other { k ≢ new }
        requires named { new < self.old.rank }
        requires behind { StandsBehind self.old k new }
        ensures parting { IsParting self.new }
        ensures bound { bound_of self.new ≡ bound_of self.old }
        ensures rank { self.new.rank ≡ self.old.rank }
        ensures moved { self.new.class.items ≡ slice_set self.old.class.items p new }
        ensures behind { StandsBehind self.new k new }
    {
        self.put_last(p, k);
        self.class[p as usize] = new;
        self.len[k as usize] -= 1;
        self.start[new as usize] -= 1;
        self.len[new as usize] += 1;
    }
}
