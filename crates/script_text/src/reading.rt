//! From the bytes of a text to the lines of a script.

ghost use Rattle.std.specs.Prelude.{◌≡◌, ◌==◌, ◌+◌, ◌<◌, ◌≤◌, ◌^◌, ℕ, All, IfOk, IfErr, OnOk, Some, None, map, true, length, slice_index};
ghost use Rattle.std.specs.List.{list_all};
ghost use Rattle.text_lines.specs.Views.{part_of};
ghost use Rattle.script_text.specs.declared.faults.LineFault.TheVariants.{NoMemory};
ghost use Rattle.script_text.specs.declared.faults.ScriptWord.{ScriptWord};
ghost use Rattle.script_text.specs.declared.faults.ScriptFault.TheVariants.{Text};
ghost use Rattle.script_text.specs.Answers.{texts, IsFirstFault, IsAskedBy, IsRead, IsReadAt, adds_product};
ghost use Rattle.script_text.specs.LineFaults.{asks, is_script_byte, word_texts, word_tests, text_tests, line_tests, script_fault};
ghost use Rattle.script_text.specs.Script.{IsScript, KeepsLimit};

use crate::act_words::act_of;
use crate::acts::{Act, Line};
use crate::faults::{LineFault, ScriptFault, ScriptWord};
use crate::limits::{MOST_LINES, MOST_PRODUCTS, MOST_SCRIPT};
use std::alloc::Global;
use text_lines::{TextPart, TextWords, lines, words};

/// Reads a script: each line that is neither blank nor a comment, with its number and what it asks
/// for.
///
/// The fault is that of the first line that has one: the first fault of this line.
pub fn read_script(alloc: Global, bytes: &[u8]) -> Result<Vec<Line>, ScriptFault>
    requires { length bytes.now ≤ MOST_SCRIPT }
    ensures script { IfOk result (λ script. IsScript bytes.now script.items) }
    ensures limits { IfOk result (λ script. All (λ line. KeepsLimit line.act) script.items) }
    ensures clean { OnOk result (script_fault bytes.now ≡ None) }
    ensures fault { (line : ℕ) (what : ScriptWord) → result ≡ Err (Text line what) → script_fault bytes.now ≡ Some (line, what) }
{
    let mut script = Vec::new(alloc);
    let mut number = 0;
    let mut products = 0;
    for line in lines(bytes) {
        number += 1;
        let act = match numbered_act(alloc, number, products, line) {
            Ok(act) => act,
            Err(fault) => return Err(fault.at_line(number)),
        };
        products += u32::from(is_product(&act));
        if let Some(act) = act {
            script.push(Line { number, act })?;
        }
    }
    Ok(script)
}

// What a line with this number asks for, if anything, after so many product lines.
fn numbered_act(
    alloc: Global,
    number: u32,
    products: u32,
    line: TextPart<'_>,
) -> Result<Option<Act>, LineFault>
    requires { length line.bytes.now < 2 ^ 31 }
    ensures ok { IfOk result (IsReadAt number products (part_of line.entry)) }
    ensures err { IfErr result (IsFirstFault (line_tests number (products + 1) (part_of line.entry))) }
{
    if number > MOST_LINES {
        return Err(LineFault::Word(ScriptWord::TooManyLines));
    }
    let act = line_act(alloc, line)?;
    if products >= MOST_PRODUCTS && is_product(&act) {
        return Err(LineFault::Word(ScriptWord::TooManyProducts));
    }
    Ok(act)
}

// Whether a line asks for a product with the relation of a file.
fn is_product(act: &Option<Act>) -> bool
    ensures { result ≡ adds_product act.now }
{
    matches!(act, Some(Act::Direct { .. } | Act::Wreath { .. }))
}

// What a line asks for, if anything.
fn line_act(alloc: Global, line: TextPart<'_>) -> Result<Option<Act>, LineFault>
    requires { length line.bytes.now < 2 ^ 31 }
    ensures ok { IfOk result (IsRead (part_of line.entry)) }
    ensures err { IfErr result (IsFirstFault (text_tests (part_of line.entry))) }
{
    if !is_allowed(line.bytes) {
        return Err(LineFault::Word(ScriptWord::BadByte));
    }
    words_act(alloc, line)
}

// Whether all bytes may stand in a script.
fn is_allowed(line: &[u8]) -> bool
    ensures { result ≡ list_all is_script_byte line.now }
{
    line.iter().all(|b| is_script_byte(*b))
}

// Whether the byte may stand in a script: a tab or a printable character of ASCII.
fn is_script_byte(byte: u8) -> bool
    ensures { result ≡ is_script_byte byte }
{
    matches!(byte, b'\t' | b' '..=b'~')
}

// What the words of a line ask for, unless the line is blank or a comment.
fn words_act(alloc: Global, line: TextPart<'_>) -> Result<Option<Act>, LineFault>
    requires few { length line.bytes.now < 2 ^ 31 }
    requires bytes { list_all is_script_byte line.bytes.now ≡ true }
    ensures ok { IfOk result (IsAskedBy (word_texts (part_of line.entry))) }
    ensures err { IfErr result (λ fault. (asks (word_texts (part_of line.entry)) ≡ true)
        × IsFirstFault (word_tests (word_texts (part_of line.entry))) fault) }
{
    let mut words = words(line);
    let Some(first) = words.next() else {
        return Ok(None);
    };
    if is_comment(first.bytes) {
        return Ok(None);
    }
    let others = texts_of(alloc, words)?;
    let act = act_of(alloc, first.bytes, &others)?;
    Ok(Some(act))
}

// Whether a line that begins with this word is a comment.
fn is_comment(first: &[u8]) -> bool
    ensures { result ≡ (slice_index first.now 0 == 35) }
{
    matches!(first, [b'#', ..])
}

// The words that are left of a line, without their places.
fn texts_of<'a>(alloc: Global, words: TextWords<'a>) -> Result<Vec<&'a [u8]>, LineFault>
    ensures ok { IfOk result (λ found. texts found.items ≡ map (λ word. word.bytes) words.entry) }
    ensures err { IfErr result (λ fault. fault ≡ NoMemory) }
{
    let mut texts = Vec::new(alloc);
    for word in words {
        texts.push(word.bytes)?;
    }
    Ok(texts)
}
