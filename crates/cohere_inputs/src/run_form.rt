//! The form `run RELATION SCRIPT [LINE]`: its words, and what is read for it.

ghost use Rattle.std.specs.Prelude.{◌≡◌, ◌≤◌, length, All, Some, None, MatchOption, IfSome, IfOk, IfErr, OnOk};
ghost use Rattle.scheme_io.specs.Count.{Rose};
ghost use Rattle.pair_colours.specs.Colouring.{IsRawColouring};
ghost use Rattle.script_text.specs.Script.{KeepsLimit, product_count};
ghost use Rattle.cohere_inputs.specs.Asked.{asked_run};
ghost use Rattle.cohere_inputs.specs.Lines.{halt_line};
ghost use Rattle.cohere_inputs.specs.RunForm.{run_of, run_in, AreNamedInputs, AreRunInputs};
ghost use Rattle.cohere_inputs.specs.Said.{AddsLine};
ghost use Rattle.cohere_inputs.specs.Task.{Run, IsAsked};
ghost use Rattle.cohere_inputs.specs.Unread.{IsSomeScript, Halts, HaltsSaying};
ghost use Rattle.cohere_inputs.specs.Words.{texts};

use crate::MOST_LINE;
use crate::faults::{Halt, Unread};
use crate::files::{relation_in, script_in};
use crate::products::products_in;
use crate::saying::say_halt;
use pair_colours::Colouring;
use scheme_io::{Sink, Store};
use script_text::Line;
use std::alloc::Global;
use text_lines::read_number;

/// A run: the script is to be answered over the relation at this line of its file.
#[derive(Clone, Copy, Debug)]
pub struct RunWords<'a> {
    /// The name of the relation's file.
    pub relation: &'a str,
    /// The name of the script's file.
    pub script: &'a str,
    /// The line of its file on which the relation begins, counted from 1.
    pub line: u32,
}

// The run over these files at the line, unless both are standard input.
fn run_at<'a>(relation: &'a str, script: &'a str, line: u32) -> Option<RunWords<'a>>
    ensures words { MatchOption result (run_of relation.now script.now (Some line) ≡ None)
        (λ words. run_of relation.now script.now (Some line) ≡ Some (asked_run words)) }
    ensures within { IfSome result (λ words. IsAsked (Run (asked_run words))) }
{
    if !(relation == "-" && script == "-") && line >= 1 && line <= MOST_LINE {
        Some(RunWords {
            relation,
            script,
            line,
        })
    } else {
        None
    }
}

// The run that the words after `run` ask for.
pub(crate) fn run_words(words: &[String]) -> Option<RunWords<'_>>
    ensures words { MatchOption result (run_in (texts words.now) ≡ None) (λ run. run_in (texts words.now) ≡ Some (asked_run run)) }
    ensures within { IfSome result (λ run. IsAsked (Run (asked_run run))) }
{
    match words {
        [relation, script] => run_at(relation.as_str(), script.as_str(), 1),
        [relation, script, line] => match read_number(line.as_bytes()) {
            Some(line) => run_at(relation.as_str(), script.as_str(), line),
            None => None,
        },
        _ => None,
    }
}

/// What is read for a run.
#[derive(Drop)]
pub struct RunInputs {
    /// The colouring that the history starts from.
    pub relation: Colouring,
    /// The lines to answer, in order.
    pub lines: Vec<Line>,
    /// The colourings to multiply by: one for each line that asks for a product, in order.
    pub products: Vec<Colouring>,
}

// Reads the files that the words name, the relation first.
fn named_inputs<'a, S: Store>(
    alloc: Global,
    store: &mut S,
    words: RunWords<'a>,
) -> Result<(Colouring, Vec<Line>), Halt<'a>>
    requires { IsAsked (Run (asked_run words)) }
    ensures same_files { S.files store.new ≡ S.files store.old }
    ensures later { S.faults store.old ≤ S.faults store.new }
    ensures raw { IfOk result (λ inputs. IsRawColouring inputs.0) }
    ensures text { IfOk result (λ inputs. IsSomeScript inputs.1.items) }
    ensures limits { IfOk result (λ inputs. All (λ line. KeepsLimit line.act) inputs.1.items) }
    ensures read { IfOk result (λ inputs. IfSome (S.files store.old) (λ files.
        AreNamedInputs files (asked_run words.entry) inputs.0 inputs.1.items)) }
    ensures halt { IfErr result (λ halt.
        Halts (S.files store.old) (Run (asked_run words.entry)) halt.name.now halt.why (Rose (S.faults store.old) (S.faults store.new))) }
{
    let relation = match relation_in(alloc, store, words.relation, words.line) {
        Ok(relation) => relation,
        Err(why) => {
            return Err(Halt {
                name: words.relation,
                why,
            });
        }
    };
    match script_in(alloc, store, words.script) {
        Ok(lines) => Ok((relation, lines)),
        Err(why) => Err(Halt {
            name: words.script,
            why,
        }),
    }
}

// Says where loading stopped, and gives the reason.
fn said<E: Sink>(err: &mut E, halt: Halt<'_>) -> Unread
    ensures why { result ≡ halt.entry.why }
    ensures line { AddsLine E.written E.faults err.old err.new (halt_line halt.entry.name.now halt.entry.why) }
{
    say_halt(err, &halt);
    halt.why
}

/// Reads the files of a run: the relation, the script, and then the file of each product, in the
/// order of the lines, a file that is named twice twice.
///
/// Where loading stops, the line that names the file is written to `err`, since a product is named
/// by the script alone, which is gone after the call.
pub fn run_inputs<S: Store, E: Sink>(
    alloc: Global,
    store: &mut S,
    words: RunWords<'_>,
    err: &mut E,
) -> Result<RunInputs, Unread>
    requires { IsAsked (Run (asked_run words)) }
    ensures same_files { S.files store.new ≡ S.files store.old }
    ensures later { S.faults store.old ≤ S.faults store.new }
    ensures quiet { OnOk result (err.new ≡ err.old) }
    ensures raw { IfOk result (λ inputs. IsRawColouring inputs.relation) }
    ensures limits { IfOk result (λ inputs. All (λ line. KeepsLimit line.act) inputs.lines.items) }
    ensures products { IfOk result (λ inputs. All IsRawColouring inputs.products.items) }
    ensures one_each { IfOk result (λ inputs. length inputs.products.items ≡ product_count inputs.lines.items) }
    ensures read { IfOk result (λ inputs. IfSome (S.files store.old) (λ files.
        AreRunInputs files (asked_run words.entry) inputs.relation inputs.lines.items inputs.products.items)) }
    ensures halt { IfErr result (λ why.
        HaltsSaying (S.files store.old) (Run (asked_run words.entry)) why (Rose (S.faults store.old) (S.faults store.new))
        (AddsLine E.written E.faults err.old err.new)) }
{
    let (relation, lines) = match named_inputs(alloc, store, words) {
        Ok(inputs) => inputs,
        Err(halt) => return Err(said(err, halt)),
    };
    let products = match products_in(alloc, store, &lines) {
        Ok(products) => products,
        Err(halt) => return Err(said(err, halt)),
    };
    Ok(RunInputs {
        relation,
        lines,
        products,
    })
}
