//! From the words of a line to what they ask for.

ghost use Rattle.std.specs.Prelude.{◌≡◌, ◌≢◌, ◌==◌, ◌<◌, ◌^◌, ◌∷◌, All, IsTrue, IfOk, IfErr, false, codes, bytes_eq, length, if◌then◌else◌};
ghost use Rattle.std.specs.Str.{IsAscii};
ghost use Rattle.script_text.specs.declared.acts.Act.TheVariants.{Mergings};
ghost use Rattle.script_text.specs.declared.acts.GraphForm.TheVariants.{Graph6, Digraph6};
ghost use Rattle.script_text.specs.Answers.{texts, IsFaultWhere, IsFirstFault};
ghost use Rattle.script_text.specs.Grammar.{AsksFor, IsLimit};
ghost use Rattle.script_text.specs.Keyword.{spelling, allows, has_unknown_word};
ghost use Rattle.script_text.specs.LineFaults.{content_tests, is_beyond_limit, word_tests};

use crate::acts::{Act, GraphForm, Name};
use crate::faults::{LineFault, ScriptWord};
use crate::keywords::{Keyword, allows, has_unknown_word, keyword_of};
use crate::limits::MOST_MERGINGS;
use crate::word_numbers::{number, numbers, three_numbers, two_numbers};
use pair_colours::Numbers;
use std::alloc::Global;

// What the words of a line ask for, by the first and the others.
pub(crate) fn act_of(alloc: Global, first: &[u8], others: &[&[u8]]) -> Result<Act, LineFault>
    requires few { length others.now < 2 ^ 32 }
    requires ascii { All (λ word. IsAscii word.now) others.now }
    ensures ok { IfOk result (AsksFor (first.now ∷ texts others.now)) }
    ensures err { IfErr result (IsFirstFault (word_tests (first.now ∷ texts others.now))) }
{
    let Some(keyword) = keyword_of(first) else {
        return Err(LineFault::Word(ScriptWord::UnknownWord));
    };
    if has_unknown_word(keyword, others) {
        return Err(LineFault::Word(ScriptWord::UnknownWord));
    }
    if !allows(keyword, others.len()) {
        return Err(LineFault::Word(ScriptWord::WrongCount));
    }
    keyword_act(alloc, keyword, others)
}

// What a keyword with these words behind it asks for.
fn keyword_act(alloc: Global, keyword: Keyword, words: &[&[u8]]) -> Result<Act, LineFault>
    requires few { length words.now < 2 ^ 32 }
    requires ascii { All (λ word. IsAscii word.now) words.now }
    requires known { has_unknown_word keyword (texts words.now) ≡ false }
    requires count { IsTrue (allows keyword (length words.now)) }
    ensures ok { IfOk result (AsksFor (spelling keyword ∷ texts words.now)) }
    ensures err { IfErr result (IsFirstFault (content_tests keyword (texts words.now))) }
{
    match keyword {
        Keyword::Set => {
            let (x, y, colour) = three_numbers(words)?;
            Ok(Act::Set { x, y, colour })
        }
        Keyword::Both => {
            let (x, y, colour) = three_numbers(words)?;
            Ok(Act::Both { x, y, colour })
        }
        Keyword::Fix => Ok(Act::Fix {
            x: number(words[0])?,
        }),
        Keyword::Join => {
            let (keep, gone) = two_numbers(words)?;
            Ok(Act::Join { keep, gone })
        }
        Keyword::Adopt => Ok(Act::Adopt),
        Keyword::Fuse => Ok(Act::Fuse {
            string: numbers(alloc, words)?,
        }),
        Keyword::Direct => Ok(Act::Direct {
            file: file_name(alloc, words[0])?,
        }),
        Keyword::Wreath => Ok(Act::Wreath {
            file: file_name(alloc, words[0])?,
        }),
        Keyword::Undo => Ok(Act::Undo),
        Keyword::Redo => Ok(Act::Redo),
        Keyword::Show => Ok(Act::Show),
        Keyword::Raw => Ok(Act::Raw),
        Keyword::Classes => Ok(Act::Classes),
        Keyword::Constants => Ok(Act::Constants),
        Keyword::Tests => Ok(Act::Tests),
        Keyword::Array => Ok(Act::Array {
            set: numbers(alloc, words)?,
        }),
        Keyword::Closed => Ok(Act::Closed),
        Keyword::Quotient => Ok(Act::Quotient {
            set: numbers(alloc, words)?,
        }),
        Keyword::Sub => {
            let x = number(words[0])?;
            let set = numbers(alloc, &words[1..])?;
            Ok(Act::Sub { x, set })
        }
        Keyword::Close => Ok(Act::Close {
            string: numbers(alloc, words)?,
        }),
        Keyword::Good => Ok(Act::Good),
        Keyword::Mergings => mergings(alloc, words),
        Keyword::Trace => Ok(trace(words)),
        Keyword::Write => write(alloc, words),
    }
}

// The name of a file.
fn file_name(alloc: Global, word: &[u8]) -> Result<Name, LineFault>
    requires { IsAscii word.now }
    ensures ok { IfOk result (λ name. (name ≡ word.now) × (word.now ≢ codes "-")) }
    ensures err { IfErr result (IsFaultWhere ScriptWord.BadName (bytes_eq word.now (codes "-"))) }
{
    if word == b"-".as_slice() {
        return Err(LineFault::Word(ScriptWord::BadName));
    }
    Name::from_ascii(alloc, word)
}

// What `mergings` with these words behind it asks for.
fn mergings(alloc: Global, words: &[&[u8]]) -> Result<Act, LineFault>
    requires few { length words.now < 2 ^ 32 }
    requires known { has_unknown_word Keyword.Mergings (texts words.now) ≡ false }
    requires count { IsTrue (allows Keyword.Mergings (length words.now)) }
    ensures ok { IfOk result (AsksFor (spelling Keyword.Mergings ∷ texts words.now)) }
    ensures err { IfErr result (IsFirstFault (content_tests Keyword.Mergings (texts words.now))) }
{
    let most = number(words[0])?;
    if words.len() == 1 {
        return fusions(most, None);
    }
    let after = numbers(alloc, &words[2..])?;
    fusions(most, Some(after))
}

// The act that asks for so many fusions.
fn fusions(most: u32, after: Option<Numbers>) -> Result<Act, LineFault>
    ensures ok { IfOk result (λ act. (act ≡ Mergings most after) × IsLimit most) }
    ensures err { IfErr result (IsFaultWhere ScriptWord.BadLimit (is_beyond_limit most)) }
{
    if most == 0 || most > MOST_MERGINGS {
        return Err(LineFault::Word(ScriptWord::BadLimit));
    }
    Ok(Act::Mergings { most, after })
}

// What `trace` with these words behind it asks for.
fn trace(words: &[&[u8]]) -> Act
    requires known { has_unknown_word Keyword.Trace (texts words.now) ≡ false }
    requires count { IsTrue (allows Keyword.Trace (length words.now)) }
    ensures { AsksFor (spelling Keyword.Trace ∷ texts words.now) result }
{
    Act::Trace {
        version: trace_version(words),
    }
}

// The version of the trace where these words stand behind `trace`: 1 where there are none.
fn trace_version(words: &[&[u8]]) -> u32
    ensures { result ≡ (if length words.now == 0 then 1 else 2) }
{
    if words.is_empty() { 1 } else { 2 }
}

// What `write` with these words behind it asks for.
fn write(alloc: Global, words: &[&[u8]]) -> Result<Act, LineFault>
    requires few { length words.now < 2 ^ 32 }
    requires known { has_unknown_word Keyword.Write (texts words.now) ≡ false }
    requires count { IsTrue (allows Keyword.Write (length words.now)) }
    ensures ok { IfOk result (AsksFor (spelling Keyword.Write ∷ texts words.now)) }
    ensures err { IfErr result (IsFirstFault (content_tests Keyword.Write (texts words.now))) }
{
    let form = graph_form(words[0]);
    let set = numbers(alloc, &words[1..])?;
    Ok(Act::Write { form, set })
}

// The format of graphs that a word names, digraph6 where it names none.
fn graph_form(word: &[u8]) -> GraphForm
    ensures { result ≡ (if bytes_eq word.now (codes "graph6") then Graph6 else Digraph6) }
{
    if word == b"graph6".as_slice() {
        GraphForm::Graph6
    } else {
        GraphForm::Digraph6
    }
}
