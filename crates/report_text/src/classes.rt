//! The answer that lists the classes of a configuration.

ghost use Rattle.std.specs.Prelude.{◌≡◌, ◌++◌, ◌<◌, IfOk, OnOk};
ghost use Rattle.std.specs.List.{flat_map};
ghost use Rattle.pair_colours.specs.Colouring.{points};
ghost use Rattle.pair_colours.specs.Naming.{rank_of};
ghost use Rattle.report_text.specs.Classes.{class_line, classes_text_of, spaced_pair};

use pair_colours::NoMemory;
use std::alloc::{AllocError, Global};
use struct_consts::Constants;
use text_lines::Text;

/// The answer that lists the classes: their number, and then a line for each class with its size,
/// its valency, the class of its turned pairs, its first pair and the fibres that it joins.
pub fn classes_text(alloc: Global, k: &Constants) -> Result<Vec<u8>, NoMemory>
    ensures { IfOk result (λ text. text.items ≡ classes_text_of k.now) }
{
    let mut text = Text::new(alloc);
    text.put_field(b"classes ", k.rank())?;
    text.put(b"\n")?;
    put_classes(&mut text, k)?;
    Ok(text.into_bytes())
}

// Puts the line of each class at the end.
fn put_classes(text: &mut Text, k: &Constants) -> Result<(), AllocError>
    ensures { OnOk result (text.new ≡ text.old ++ flat_map (class_line k.now) (points (rank_of k.now))) }
{
    for class in 0..k.rank() {
        put_class(text, k, class)?;
    }
    Ok(())
}

// Puts the line of a class at the end.
fn put_class(text: &mut Text, k: &Constants, class: u32) -> Result<(), AllocError>
    requires { class < rank_of k.now }
    ensures { OnOk result (text.new ≡ text.old ++ class_line k.now class) }
{
    text.put_field(b"class ", class)?;
    text.put_field(b" size ", k.size(class))?;
    text.put_field(b" valency ", k.valency(class))?;
    text.put_field(b" transpose ", k.transpose(class))?;
    put_pair(text, b" pair ", k.pair(class))?;
    put_pair(text, b" fibres ", k.fibres(class))?;
    text.put(b"\n")
}

// Puts a word and the two numbers after it at the end.
fn put_pair(text: &mut Text, word: &[u8], pair: (u32, u32)) -> Result<(), AllocError>
    ensures { OnOk result (text.new ≡ text.old ++ word.now ++ spaced_pair pair) }
{
    let (first, second) = pair;
    text.put(word)?;
    text.put_numbers(b' ', &[first, second])
}
