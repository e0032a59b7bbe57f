//! The answers of the lines that change nothing.

ghost use Rattle.std.specs.Prelude.{◌≡◌, List, true, IfOk};
ghost use Rattle.pair_colours.specs.Closure.{IsClosureOf};
ghost use Rattle.recolour_bench.specs.EntryChains.{claim_by, round_claim_by};
ghost use Rattle.recolour_bench.specs.History.{present, present_chain};
ghost use Rattle.report_text.specs.Matrices.{show_text};
ghost use Rattle.report_text.specs.Classes.{classes_text_of};
ghost use Rattle.report_text.specs.Constants.{constants_text_of};
ghost use Rattle.report_text.specs.Tests.{tests_text_of};
ghost use Rattle.trace_text.specs.declared.stage_list.Stage.{Stage};
ghost use Rattle.trace_text.specs.RoundChains.{IsRoundChain};
ghost use Rattle.trace_text.specs.TraceText.{trace_text};
ghost use Rattle.scheme_tests.specs.declared.properties.SchemeTests.{SchemeTests};
ghost use Rattle.scheme_tests.specs.Law.{AreAnswers};
ghost use Rattle.script_text.specs.Grammar.{IsLimit};
ghost use Rattle.script_text.specs.Script.{KeepsLimit};
ghost use Rattle.cohere_core.specs.ClosedSubsets.{ListsClosed, AnswersQuotient, AnswersSub};
ghost use Rattle.cohere_core.specs.Fusions.{AnswersClose, ListsGood, AnswersMergings};
ghost use Rattle.cohere_core.specs.Answer.{AnswersArray, OfConfiguration, Tells, TellsTrace, WritesGraph};
ghost use Rattle.cohere_core.specs.Queries.{is_query};

use crate::fusion_queries::{close_answer, good_answer, mergings_answer};
use crate::subset_queries::{closed_answer, quotient_answer, sub_answer};
use drg_arrays::{ArrayFault, array};
use pair_colours::{Colouring, NoMemory, Numbers};
use recolour_bench::Bench;
use relation_text::{WriteFault, write_digraph6, write_graph6};
use report_text::{
    GraphNote, MatrixHead, array_text, classes_text, constants_text, graph_text, matrix_text,
    refused_text, tests_text,
};
use scheme_tests::tests;
use script_text::{Act, GraphForm};
use std::alloc::Global;
use struct_consts::Constants;
use trace_text::write_trace;
use visitors::Visitor;
use wl_refine::rounds;

// The structure constants of the closure.
fn constants_of(alloc: Global, bench: &Bench) -> Result<Constants, NoMemory>
    ensures { IfOk result (λ constants. IsClosureOf constants (present bench.now)) }
{
    Constants::of(alloc, bench.closure())
}

// The matrix of the closure.
fn shown(alloc: Global, bench: &Bench) -> Result<Vec<u8>, NoMemory>
    ensures { IfOk result (λ text. OfConfiguration bench.now (λ K. text.items ≡ show_text K)) }
{
    matrix_text(alloc, MatrixHead::Show, bench.closure())
}

// The classes of the closure.
fn listed_classes(alloc: Global, bench: &Bench) -> Result<Vec<u8>, NoMemory>
    ensures { IfOk result (λ text. OfConfiguration bench.now (λ K. text.items ≡ classes_text_of K)) }
{
    let constants = constants_of(alloc, bench)?;
    classes_text(alloc, &constants)
}

// The structure constants of the closure that are not 0.
fn listed_constants(alloc: Global, bench: &Bench) -> Result<Vec<u8>, NoMemory>
    ensures { IfOk result (λ text. OfConfiguration bench.now (λ K. text.items ≡ constants_text_of K)) }
{
    let constants = constants_of(alloc, bench)?;
    constants_text(alloc, &constants)
}

// The five tests of the closure.
fn listed_tests(alloc: Global, bench: &Bench) -> Result<Vec<u8>, NoMemory>
    ensures { IfOk result (λ text. OfConfiguration bench.now (λ K. (t : SchemeTests) × AreAnswers K t × (text.items ≡ tests_text_of t))) }
{
    let constants = constants_of(alloc, bench)?;
    let answers = tests(alloc, &constants)?;
    tests_text(alloc, &answers)
}

// The intersection array of the graph of a set of classes, or why it has none.
fn graph_answer(alloc: Global, closure: &Colouring, set: &[u32]) -> Result<Vec<u8>, NoMemory>
    ensures { IfOk result (λ text. AnswersArray closure.now set.now text.items) }
{
    match array(alloc, closure, set) {
        Ok(answer) => array_text(alloc, &answer),
        Err(ArrayFault::BadSet) => refused_text(alloc, "BadSet"),
        Err(ArrayFault::NoMemory) => Err(NoMemory),
    }
}

// The intersection array over the closure.
fn array_answer(alloc: Global, bench: &Bench, set: &[u32]) -> Result<Vec<u8>, NoMemory>
    ensures { IfOk result (λ text. OfConfiguration bench.now (λ K. AnswersArray K set.now text.items)) }
{
    graph_answer(alloc, bench.closure(), set)
}

// The graph6 text of a set of classes.
fn written_graph6(alloc: Global, closure: &Colouring, set: &[u32]) -> Result<Vec<u8>, NoMemory>
    ensures { IfOk result (λ text. WritesGraph closure.now GraphForm.Graph6 set.now text.items) }
{
    match write_graph6(alloc, closure, set) {
        Ok(text) => graph_text(alloc, GraphNote::Graph6, &text),
        Err(WriteFault::BadSet) => refused_text(alloc, "BadSet"),
        Err(WriteFault::NoMemory) => Err(NoMemory),
    }
}

// The digraph6 text of a set of classes.
fn written_digraph6(alloc: Global, closure: &Colouring, set: &[u32]) -> Result<Vec<u8>, NoMemory>
    ensures { IfOk result (λ text. WritesGraph closure.now GraphForm.Digraph6 set.now text.items) }
{
    match write_digraph6(alloc, closure, set) {
        Ok(text) => graph_text(alloc, GraphNote::Digraph6, &text),
        Err(WriteFault::BadSet) => refused_text(alloc, "BadSet"),
        Err(WriteFault::NoMemory) => Err(NoMemory),
    }
}

// The graph of a set of classes of the closure.
fn written(alloc: Global, bench: &Bench, form: GraphForm, set: &[u32]) -> Result<Vec<u8>, NoMemory>
    ensures { IfOk result (λ text. OfConfiguration bench.now (λ K. WritesGraph K form set.now text.items)) }
{
    match form {
        GraphForm::Graph6 => written_graph6(alloc, bench.closure(), set),
        GraphForm::Digraph6 => written_digraph6(alloc, bench.closure(), set),
    }
}

// The closed subsets of the closure.
fn listed_closed(
    alloc: Global,
    bench: &Bench,
    visitor: &mut dyn Visitor,
) -> Result<Vec<u8>, NoMemory>
    ensures { IfOk result (λ text. OfConfiguration bench.now (λ K. ListsClosed K text.items)) }
{
    closed_answer(alloc, bench.closure(), visitor)
}

// The quotient of the closure by a set of classes.
fn divided(alloc: Global, bench: &Bench, set: &[u32]) -> Result<Vec<u8>, NoMemory>
    ensures { IfOk result (λ text. OfConfiguration bench.now (λ K. AnswersQuotient K set.now text.items)) }
{
    quotient_answer(alloc, bench.closure(), set)
}

// The subscheme of the closure on the class of a point by a set of classes.
fn restricted(alloc: Global, bench: &Bench, x: u32, set: &[u32]) -> Result<Vec<u8>, NoMemory>
    ensures { IfOk result (λ text. OfConfiguration bench.now (λ K. AnswersSub K x set.now text.items)) }
{
    sub_answer(alloc, bench.closure(), x, set)
}

// The closure on the classes of the closure of a growth string.
fn closed_string(alloc: Global, bench: &Bench, string: &[u32]) -> Result<Vec<u8>, NoMemory>
    ensures { IfOk result (λ text. OfConfiguration bench.now (λ K. AnswersClose K string.now text.items)) }
{
    close_answer(alloc, bench.closure(), string)
}

// The good subsets of the closure.
fn listed_good(alloc: Global, bench: &Bench, visitor: &mut dyn Visitor) -> Result<Vec<u8>, NoMemory>
    ensures { IfOk result (λ text. OfConfiguration bench.now (λ K. ListsGood K text.items)) }
{
    good_answer(alloc, bench.closure(), visitor)
}

// The first fusions of the closure, from the first on or after a string.
fn listed_mergings(
    alloc: Global,
    bench: &Bench,
    most: u32,
    after: &Option<Numbers>,
    visitor: &mut dyn Visitor,
) -> Result<Vec<u8>, NoMemory>
    requires { IsLimit most }
    ensures { IfOk result (λ text. OfConfiguration bench.now (λ K. AnswersMergings K most after.now text.items)) }
{
    let string = match after {
        None => None,
        Some(string) => Some(string.as_slice()),
    };
    mergings_answer(alloc, bench.closure(), most, string, visitor)
}

/// The trace, of version 1, of the chain that shows the closure.
pub(crate) fn traced(alloc: Global, bench: &Bench) -> Result<Vec<u8>, NoMemory>
    ensures { IfOk result (λ text. OfConfiguration bench.now (λ K. text.items ≡ trace_text (claim_by (present_chain bench.now) K))) }
{
    write_trace(alloc, 1, bench.chain(), bench.closure())
}

/// The trace, of version 2, of its chain of rounds.
fn traced_by_rounds(alloc: Global, bench: &Bench) -> Result<Vec<u8>, NoMemory>
    ensures { IfOk result (λ text. OfConfiguration bench.now (λ K. (chain : List Stage) × IsRoundChain (present_chain bench.now) chain × (text.items ≡ trace_text (round_claim_by chain K)))) }
{
    let chain = rounds(alloc, bench.chain())?;
    write_trace(alloc, 2, chain.as_slice(), bench.closure())
}

/// The trace of a version.
fn trace_answer(alloc: Global, bench: &Bench, version: u32) -> Result<Vec<u8>, NoMemory>
    ensures { IfOk result (λ text. OfConfiguration bench.now (λ K. TellsTrace version bench.now K text.items)) }
{
    if version == 1 {
        traced(alloc, bench)
    } else {
        traced_by_rounds(alloc, bench)
    }
}

/// Answers a query.
pub(crate) fn query_answer(
    alloc: Global,
    bench: &Bench,
    act: &Act,
    visitor: &mut dyn Visitor,
) -> Result<Vec<u8>, NoMemory>
    requires query { is_query act.now ≡ true }
    requires limit { KeepsLimit act.now }
    ensures { IfOk result (λ text. Tells bench.now act.now text.items) }
{
    match act {
        Act::Show => shown(alloc, bench),
        Act::Raw => matrix_text(alloc, MatrixHead::Raw, bench.present()),
        Act::Classes => listed_classes(alloc, bench),
        Act::Constants => listed_constants(alloc, bench),
        Act::Tests => listed_tests(alloc, bench),
        Act::Array { set } => array_answer(alloc, bench, set.as_slice()),
        Act::Closed => listed_closed(alloc, bench, visitor),
        Act::Quotient { set } => divided(alloc, bench, set.as_slice()),
        Act::Sub { x, set } => restricted(alloc, bench, *x, set.as_slice()),
        Act::Close { string } => closed_string(alloc, bench, string.as_slice()),
        Act::Good => listed_good(alloc, bench, visitor),
        Act::Mergings { most, after } => listed_mergings(alloc, bench, *most, after, visitor),
        Act::Trace { version } => trace_answer(alloc, bench, *version),
        Act::Write { form, set } => written(alloc, bench, *form, set.as_slice()),
        _ => unreachable!(),
    }
}
