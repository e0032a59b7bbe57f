//! The texts of the answers of `lattice`.

ghost use Rattle.std.specs.Prelude.{◌≡◌, ◌++◌, IfOk, OnOk};
ghost use Rattle.neighbour_answers.specs.LatticeAnswer.{common_text_of, cover_lines, lattice_text_of};

use fusion_lattice::CoverList;
use pair_colours::NoMemory;
use report_text::put_entries;
use std::alloc::{AllocError, Global};
use text_lines::Text;
use visitors::Visitor;

/// The text of fusions and their covers: how many of each, a line for each fusion, a line `I J` for
/// each cover, the finer fusion first, and `end`.
pub(crate) fn lattice_text(
    alloc: Global,
    fusions: &dyn Visitor,
    covers: &CoverList,
) -> Result<Vec<u8>, NoMemory>
    ensures { IfOk result (λ text. text.items ≡ lattice_text_of (met fusions.now) covers.now) }
{
    let mut text = Text::new(alloc);
    put_lattice(&mut text, fusions, covers)?;
    Ok(text.into_bytes())
}

// Puts these lines at the end.
fn put_lattice(text: &mut Text, fusions: &dyn Visitor, covers: &CoverList) -> Result<(), AllocError>
    ensures { OnOk result (text.new ≡ text.old ++ lattice_text_of (met fusions.now) covers.now) }
{
    text.put_field(b"lattice fusions ", fusions.len())?;
    text.put_field(b" covers ", covers.len())?;
    text.put(b"\n")?;
    put_entries(&mut *text, fusions, fusions.len())?;
    put_covers(&mut *text, covers)?;
    text.put(b"end\n")
}

// Puts the lines of covers at the end.
fn put_covers(text: &mut Text, covers: &CoverList) -> Result<(), AllocError>
    ensures { OnOk result (text.new ≡ text.old ++ cover_lines covers.now) }
{
    for place in 0..covers.len() {
        let cover = covers.at(place);
        text.put_line(b"", &[cover.finer, cover.coarser])?;
    }
    Ok(())
}

/// The line of the place of the common fusion of those at two places.
pub(crate) fn common_text(alloc: Global, i: u32, j: u32, place: u32) -> Result<Vec<u8>, NoMemory>
    ensures { IfOk result (λ text. text.items ≡ common_text_of i j place) }
{
    let mut text = Text::new(alloc);
    text.put_line(b"common ", &[i, j, place])?;
    Ok(text.into_bytes())
}
