//! The answer that lists the structure constants of a configuration.

ghost use Rattle.std.specs.Prelude.{◌≡◌, ◌++◌, ◌<◌, IfOk, OnOk, length};
ghost use Rattle.std.specs.List.{flat_map};
ghost use Rattle.pair_colours.specs.Naming.{rank_of};
ghost use Rattle.report_text.specs.Constants.{nonzero_triples, constant_line, constants_text_of, entry_line};

use pair_colours::NoMemory;
use std::alloc::{AllocError, Global};
use struct_consts::{Constants, Entry};
use text_lines::Text;

/// The answer that lists the structure constants that are not 0: the number of classes and of such
/// constants, and then a line `I J K P` for each constant P = p(I, J; K), by K, then I, then J.
pub fn constants_text(alloc: Global, k: &Constants) -> Result<Vec<u8>, NoMemory>
    ensures { IfOk result (λ text. text.items ≡ constants_text_of k.now) }
{
    let mut text = Text::new(alloc);
    text.put_field(b"constants ", k.rank())?;
    text.put(b" entries ")?;
    text.put_number(entry_count(k))?;
    text.put(b"\n")?;
    put_rows(&mut text, k)?;
    Ok(text.into_bytes())
}

// How many structure constants are not 0.
fn entry_count(k: &Constants) -> u64
    ensures { result ≡ length (nonzero_triples k.now) }
{
    let mut count = 0;
    for class in 0..k.rank() {
        count += k.entries(class).len() as u64;
    }
    count
}

// Puts the lines of all classes at the end.
fn put_rows(text: &mut Text, k: &Constants) -> Result<(), AllocError>
    ensures { OnOk result (text.new ≡ text.old ++ flat_map (constant_line k.now) (nonzero_triples k.now)) }
{
    for class in 0..k.rank() {
        put_row(text, class, k.entries(class))?;
    }
    Ok(())
}

// Puts the lines of the row of a class at the end.
fn put_row(text: &mut Text, class: u32, row: &[Entry]) -> Result<(), AllocError>
    ensures { OnOk result (text.new ≡ text.old ++ flat_map (entry_line class) row.now) }
{
    for entry in row {
        text.put_line(b"", &[entry.left, entry.right, class, entry.count])?;
    }
    Ok(())
}
