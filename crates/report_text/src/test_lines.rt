//! The answer of the five tests.

ghost use Rattle.std.specs.Prelude.{◌≡◌, ◌++◌, IfOk, OnOk};
ghost use Rattle.report_text.specs.Tests.{tests_text_of, yes_or_no};

use pair_colours::NoMemory;
use scheme_tests::SchemeTests;
use std::alloc::{AllocError, Global};
use text_lines::Text;

/// The answer that names each of the five tests and says whether it holds.
pub fn tests_text(alloc: Global, tests: &SchemeTests) -> Result<Vec<u8>, NoMemory>
    ensures { IfOk result (λ text. text.items ≡ tests_text_of tests.now) }
{
    let mut text = Text::new(alloc);
    put_test(&mut text, b"tests homogeneous ", tests.homogeneous)?;
    put_test(&mut text, b" symmetric ", tests.symmetric)?;
    put_test(&mut text, b" commutative ", tests.commutative)?;
    put_test(&mut text, b" thin ", tests.thin)?;
    put_test(&mut text, b" primitive ", tests.primitive)?;
    text.put(b"\n")?;
    Ok(text.into_bytes())
}

// Puts the name of a test at the end, and whether it holds.
fn put_test(text: &mut Text, name: &[u8], holds: bool) -> Result<(), AllocError>
    ensures { OnOk result (text.new ≡ text.old ++ name.now ++ yes_or_no holds) }
{
    text.put(name)?;
    text.put(word_of(holds))
}

// Whether a test holds, as a word.
fn word_of(holds: bool) -> &'static [u8]
    ensures { result.now ≡ yes_or_no holds }
{
    if holds { b"yes" } else { b"no" }
}
