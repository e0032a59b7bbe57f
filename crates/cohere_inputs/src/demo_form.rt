//! The form `demo NUMBER`: its words. No file is read for it.

ghost use Rattle.std.specs.Prelude.{◌≡◌};
ghost use Rattle.cohere_inputs.specs.DemoForm.{demo_in};
ghost use Rattle.cohere_inputs.specs.Words.{texts};

use text_lines::read_number;

// The number, where the words after `demo` are one word in the form of numbers.
pub(crate) fn demo_words(words: &[String]) -> Option<u32>
    ensures { result ≡ demo_in (texts words.now) }
{
    match words {
        [number] => read_number(number.as_bytes()),
        _ => None,
    }
}
