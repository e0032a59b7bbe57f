//! What may be done to the present colouring, and why it may be refused.

ghost use Rattle.std.specs.Prelude.{◌≡◌};
ghost use Rattle.recolour_bench.specs.declared.edits.EditFault.TheVariants.{NoMemory as WantOfMemory};
ghost use Rattle.recolour_bench.specs.Edits.{edit_of, makes_closure as is_closed};
ghost use Rattle.recolour_bench.specs.Words.{edit_word};

use pair_colours::{Colouring, NoMemory};

/// A change of the present colouring. Points and colours may be any numbers: what is out of range
/// is refused.
#[derive(Clone, Copy)]
pub enum Edit<'a> {
    /// Gives the pair (x, y) the colour.
    Set { x: u32, y: u32, colour: u32 },
    /// Gives the pairs (x, y) and (y, x) the colour.
    Both { x: u32, y: u32, colour: u32 },
    /// Gives the pair (x, x) the least number that no pair has.
    Fix { x: u32 },
    /// Gives each pair of the colour `gone` the colour `keep`.
    Join { keep: u32, gone: u32 },
    /// Takes the closure for the colouring.
    Adopt,
    /// Merges the colours of the closure by a growth string.
    Fuse { string: &'a [u32] },
    /// Takes the direct product of the closure and the closure of the other colouring, whose
    /// colours are raw ones.
    Direct { other: &'a Colouring },
    /// Takes the wreath product of the closure and the closure of the other colouring, whose
    /// colours are raw ones.
    Wreath { other: &'a Colouring },
}

// Whether what the edit makes is coherent, whatever it is made of.
pub(crate) fn makes_closure(edit: &Edit) -> bool
    ensures { result ≡ is_closed (edit_of edit.now) }
{
    match *edit {
        Edit::Adopt | Edit::Direct { .. } | Edit::Wreath { .. } => true,
        _ => false,
    }
}

/// Why an edit, an undo or a redo changed nothing.
#[derive(Clone, Copy, Debug, PartialEq, Eq)]
pub enum EditFault {
    /// A point is not below the number of points.
    PointRange,
    /// A colour is above the greatest raw colour.
    ColourRange,
    /// No pair has a colour that is to be joined.
    ColourAbsent,
    /// The numbers are no growth string whose length is the rank of the closure.
    NotGrowth,
    /// A factor of a wreath product has more than one fibre.
    NotHomogeneous,
    /// The product of the sizes is above the limit of points.
    TooManyPoints,
    /// The history is at its last possible position.
    HistoryFull,
    /// The history is at its first entry.
    NothingToUndo,
    /// The history is at its last entry.
    NothingToRedo,
    /// There is not enough memory.
    NoMemory,
}

impl EditFault {
    /// The word of the fault: the name of its variant.
    pub fn as_str(self) -> &'static str
        ensures { result.now ≡ edit_word self }
    {
        match self {
            EditFault::PointRange => "PointRange",
            EditFault::ColourRange => "ColourRange",
            EditFault::ColourAbsent => "ColourAbsent",
            EditFault::NotGrowth => "NotGrowth",
            EditFault::NotHomogeneous => "NotHomogeneous",
            EditFault::TooManyPoints => "TooManyPoints",
            EditFault::HistoryFull => "HistoryFull",
            EditFault::NothingToUndo => "NothingToUndo",
            EditFault::NothingToRedo => "NothingToRedo",
            EditFault::NoMemory => "NoMemory",
        }
    }
}

impl From<NoMemory> for EditFault {
    ghost from_gives = { λ _ e. e ≡ WantOfMemory };

    fn from(_error: NoMemory) -> EditFault {
        EditFault::NoMemory
    }
}
