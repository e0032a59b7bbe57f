//! The numbers among the words of a line.

ghost use Rattle.std.specs.Prelude.{◌≡◌, ◌<◌, ◌^◌, ◌∷◌, [], IfOk, IfErr, not, length};
ghost use Rattle.std.specs.List.{AllZip, list_all};
ghost use Rattle.text_lines.specs.Number.{IsNumberForm};
ghost use Rattle.script_text.specs.Answers.{texts, IsFaultWhere};
ghost use Rattle.script_text.specs.LineFaults.{is_number};

use crate::faults::{LineFault, ScriptWord};
use pair_colours::Numbers;
use std::alloc::Global;
use text_lines::read_number;

// The number that a word is.
pub(crate) fn number(word: &[u8]) -> Result<u32, LineFault>
    ensures ok { IfOk result (IsNumberForm word.now) }
    ensures err { IfErr result (IsFaultWhere ScriptWord.BadNumber (not (is_number word.now))) }
{
    match read_number(word) {
        Some(number) => Ok(number),
        None => Err(LineFault::Word(ScriptWord::BadNumber)),
    }
}

// The numbers that two words are.
pub(crate) fn two_numbers(words: &[&[u8]]) -> Result<(u32, u32), LineFault>
    requires { length words.now ≡ 2 }
    ensures ok { IfOk result (λ n. AllZip IsNumberForm (texts words.now) (n.0 ∷ n.1 ∷ [])) }
    ensures err { IfErr result (IsFaultWhere ScriptWord.BadNumber (not (list_all is_number (texts words.now)))) }
{
    Ok((number(words[0])?, number(words[1])?))
}

// The numbers that three words are.
pub(crate) fn three_numbers(words: &[&[u8]]) -> Result<(u32, u32, u32), LineFault>
    requires { length words.now ≡ 3 }
    ensures ok { IfOk result (λ n. AllZip IsNumberForm (texts words.now) (n.0 ∷ n.1 ∷ n.2 ∷ [])) }
    ensures err { IfErr result (IsFaultWhere ScriptWord.BadNumber (not (list_all is_number (texts words.now)))) }
{
    Ok((number(words[0])?, number(words[1])?, number(words[2])?))
}

// The numbers that some words are.
pub(crate) fn numbers(alloc: Global, words: &[&[u8]]) -> Result<Numbers, LineFault>
    requires { length words.now < 2 ^ 32 }
    ensures ok { IfOk result (AllZip IsNumberForm (texts words.now)) }
    ensures err { IfErr result (IsFaultWhere ScriptWord.BadNumber (not (list_all is_number (texts words.now)))) }
{
    let mut numbers = Numbers::new(alloc);
    for word in words {
        numbers.push(number(word)?)?;
    }
    Ok(numbers)
}
