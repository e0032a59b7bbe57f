//! Entries stored by the prefixes that they share.

ghost use Rattle.std.specs.Prelude.{◌≡◌, ◌<◌, ◌≤◌, ◌+◌, ◌++◌, ℕ, List, length, take, slice_index, All, OnOk, OnErr};
ghost use Rattle.visitors.specs.Packing.{ArePieces, unpacked, piece_at};
ghost use Rattle.visitors.specs.declared.visitor.TheConstants.{MOST_SET_RANK};

use pair_colours::NoMemory;

// What is kept of an entry: how many first numbers it shares with the entry before it, how many
// numbers it has, and where its other numbers begin among those that are stored.
#[derive(Clone, Copy, Debug, PartialEq, Eq)]
pub(crate) struct Piece {
    pub(crate) shared: u8,
    pub(crate) width: u8,
    pub(crate) start: usize,
}

// How many entries follow each other before one is stored whole.
const RUN: usize = 16;

// The number of an entry at a place, from the last entry that does not share it.
pub(crate) fn number_at(tails: &[u8], pieces: &[Piece], entry: usize, place: usize) -> u8
    requires pieces { ArePieces tails.now pieces.now }
    requires entry { entry < length pieces.now }
    requires place { place < (piece_at pieces.now entry).width }
    ensures { result ≡ slice_index (unpacked tails.now pieces.now entry) place }
{
    let mut at = entry;
    while place < pieces[at].shared as usize {
        at -= 1;
    }
    let piece = pieces[at];
    tails[piece.start + (place - piece.shared as usize)]
}

// How many first numbers a list shares with the last entry; none where a new run begins.
pub(crate) fn shared_with_last(tails: &[u8], pieces: &[Piece], entry: &[u32]) -> usize
    requires pieces { ArePieces tails.now pieces.now }
    ensures some { 0 < result → 0 < length pieces.now }
    ensures width { result ≤ length entry.now }
    ensures before { (k : ℕ) → k + 1 ≡ length pieces.now → result ≤ (piece_at pieces.now k).width }
    ensures same { (k : ℕ) → k + 1 ≡ length pieces.now → take result (unpacked tails.now pieces.now k) ≡ take result entry.now }
{
    if pieces.len() % RUN == 0 {
        return 0;
    }
    let last = pieces.len() - 1;
    let most = (pieces[last].width as usize).min(entry.len());
    for place in 0..most {
        if number_at(tails, pieces, last, place) as u32 != entry[place] {
            return place;
        }
    }
    most
}

// Stores the numbers of a tail behind the others. After an error some of them stand there.
pub(crate) fn store_tail(tails: &mut Vec<u8>, tail: &[u32]) -> Result<(), NoMemory>
    requires { All (λ number. number < MOST_SET_RANK) tail.now }
    ensures ok { OnOk result (tails.new.items ≡ tails.old.items ++ tail.now) }
    ensures err { OnErr result ((extra : List ℕ) × (tails.new.items ≡ tails.old.items ++ extra)) }
{
    for number in tail {
        tails.push(*number as u8)?;
    }
    Ok(())
}
