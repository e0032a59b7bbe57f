//! The forms `ring TABLE COLOUR...`, `cells RELATION COLOUR...` and `lattice RELATION [I J]`: their
//! words, and what is read for them.

ghost use Rattle.std.specs.Prelude.{◌≡◌, ◌≤◌, Some, None, MatchOption, IfSome, IfOk, IfErr};
ghost use Rattle.scheme_io.specs.Count.{Rose};
ghost use Rattle.pair_colours.specs.Colouring.{IsRawColouring};
ghost use Rattle.cohere_inputs.specs.AskForms.{cells_in, lattice_in, lattice_question, ring_in};
ghost use Rattle.cohere_inputs.specs.Asked.{asked_ask, asked_question};
ghost use Rattle.cohere_inputs.specs.Bad.{IsRelationFile};
ghost use Rattle.cohere_inputs.specs.Task.{Ask};
ghost use Rattle.cohere_inputs.specs.Unread.{Halts};
ghost use Rattle.cohere_inputs.specs.Words.{texts};

use crate::faults::Halt;
use crate::files::relation_in;
use crate::number_words::{NumberWords, some_number_words};
use pair_colours::Colouring;
use scheme_io::Store;
use std::alloc::Global;
use text_lines::read_number;

/// What is asked of one relation.
#[derive(Drop)]
pub enum Question<'a> {
    /// The Schur ring of elements with these colours; the relation is a table of products.
    Ring(NumberWords<'a>),
    /// The coarsest equitable partition of the arcs with these colours.
    Cells(NumberWords<'a>),
    /// The lattice of the fusions of its closure.
    Lattice,
    /// The coarsest common refinement of two of these fusions, by their places.
    Common(u32, u32),
}

/// A question about a relation.
#[derive(Drop)]
pub struct AskWords<'a> {
    /// The name of the relation's file.
    pub relation: &'a str,
    /// What is asked.
    pub question: Question<'a>,
}

// What the words after `ring` ask.
pub(crate) fn ring_words(words: &[String]) -> Option<AskWords<'_>>
    ensures { MatchOption result (ring_in (texts words.now) ≡ None) (λ ask. ring_in (texts words.now) ≡ Some (asked_ask ask)) }
{
    let (table, words) = words.split_first()?;
    let colours = some_number_words(words)?;
    Some(AskWords {
        relation: table.as_str(),
        question: Question::Ring(colours),
    })
}

// What the words after `cells` ask.
pub(crate) fn cells_words(words: &[String]) -> Option<AskWords<'_>>
    ensures { MatchOption result (cells_in (texts words.now) ≡ None) (λ ask. cells_in (texts words.now) ≡ Some (asked_ask ask)) }
{
    let (relation, words) = words.split_first()?;
    let colours = some_number_words(words)?;
    Some(AskWords {
        relation: relation.as_str(),
        question: Question::Cells(colours),
    })
}

// What the words after the relation ask.
fn lattice_question(words: &[String]) -> Option<Question<'_>>
    ensures { MatchOption result (lattice_question (texts words.now) ≡ None) (λ question. lattice_question (texts words.now) ≡ Some (asked_question question)) }
{
    if words.is_empty() {
        return Some(Question::Lattice);
    }
    match words {
        [i, j] => {
            let i = read_number(i.as_bytes())?;
            let j = read_number(j.as_bytes())?;
            Some(Question::Common(i, j))
        }
        _ => None,
    }
}

// What the words after `lattice` ask.
pub(crate) fn lattice_words(words: &[String]) -> Option<AskWords<'_>>
    ensures { MatchOption result (lattice_in (texts words.now) ≡ None) (λ ask. lattice_in (texts words.now) ≡ Some (asked_ask ask)) }
{
    let (relation, words) = words.split_first()?;
    let question = lattice_question(words)?;
    Some(AskWords {
        relation: relation.as_str(),
        question,
    })
}

/// Reads the relation that is asked about.
pub fn ask_input<'a, S: Store>(
    alloc: Global,
    store: &mut S,
    words: &AskWords<'a>,
) -> Result<Colouring, Halt<'a>>
    ensures same_files { S.files store.new ≡ S.files store.old }
    ensures later { S.faults store.old ≤ S.faults store.new }
    ensures raw { IfOk result IsRawColouring }
    ensures read { IfOk result (λ C. IfSome (S.files store.old) (λ files. IsRelationFile files words.now.relation.now 1 C)) }
    ensures halt { IfErr result (λ halt.
        Halts (S.files store.old) (Ask (asked_ask words.now)) halt.name.now halt.why (Rose (S.faults store.old) (S.faults store.new))) }
{
    match relation_in(alloc, store, words.relation, 1) {
        Ok(colouring) => Ok(colouring),
        Err(why) => Err(Halt {
            name: words.relation,
            why,
        }),
    }
}
