//! The answer of one line: edits, undo and redo here, and the others by `queries`.

ghost use Rattle.std.specs.Prelude.{◌≡◌, ◌≢◌, ◌<◌, ℕ, List, length, slice_get, true, IfOk, IfErr, OnOk, OnErr, IsErrOf, Some, MatchOption};
ghost use Rattle.recolour_bench.specs.History.{IsHistory};
ghost use Rattle.recolour_bench.specs.Steps as steps;
ghost use Rattle.script_text.specs.Script.{KeepsLimit};
ghost use Rattle.cohere_core.specs.Answer.{Answers, IsAccepted, IsHalfway, MoveTakesMemory, Moves, TakesMemory, move_of};
ghost use Rattle.cohere_core.specs.Move.{asked_move};
ghost use Rattle.cohere_core.specs.Products.{HasProduct};
ghost use Rattle.cohere_core.specs.Queries.{is_query};

use crate::queries::query_answer;
use pair_colours::{Colouring, NoMemory};
use recolour_bench::{Bench, Edit, EditFault};
use report_text::{edit_text, refused_text};
use script_text::Act;
use std::alloc::Global;
use visitors::Visitor;

// The answer of an edit, an undo or a redo that led to what the bench stands for.
fn accepted(alloc: Global, bench: &Bench) -> Result<Vec<u8>, NoMemory>
    ensures text { IfOk result (λ text. IsAccepted bench.now text.items) }
    ensures some { (t : List ℕ) × IsAccepted bench.now t }
{
    let closure = bench.closure();
    let rank = closure.rank(alloc)?;
    edit_text(alloc, closure.size(), rank)
}

// An edit, an undo or a redo.
#[derive(Clone, Copy)]
enum Move<'a> {
    Edits(Edit<'a>),
    Undoes,
    Redoes,
}

// The first of the products.
fn first_of(products: &[Colouring]) -> &Colouring
    requires { 0 < length products.now }
    ensures { slice_get products.now 0 ≡ Some result.now }
{
    &products[0]
}

// The edit, undo or redo that an act asks for.
fn asked_for<'a>(act: &'a Act, products: &'a [Colouring]) -> Option<Move<'a>>
    requires { HasProduct products.now act.now }
    ensures { MatchOption result (is_query act.now ≡ true) (λ step. move_of products.now act.now ≡ Some (asked_move step)) }
{
    match *act {
        Act::Set { x, y, colour } => Some(Move::Edits(Edit::Set { x, y, colour })),
        Act::Both { x, y, colour } => Some(Move::Edits(Edit::Both { x, y, colour })),
        Act::Fix { x } => Some(Move::Edits(Edit::Fix { x })),
        Act::Join { keep, gone } => Some(Move::Edits(Edit::Join { keep, gone })),
        Act::Adopt => Some(Move::Edits(Edit::Adopt)),
        Act::Fuse { ref string } => Some(Move::Edits(Edit::Fuse {
            string: string.as_slice(),
        })),
        Act::Direct { .. } => Some(Move::Edits(Edit::Direct {
            other: first_of(products),
        })),
        Act::Wreath { .. } => Some(Move::Edits(Edit::Wreath {
            other: first_of(products),
        })),
        Act::Undo => Some(Move::Undoes),
        Act::Redo => Some(Move::Redoes),
        _ => None,
    }
}

// Carries out an edit, an undo or a redo.
fn carry_out(bench: &mut Bench, step: Move<'_>) -> Result<(), EditFault>
    requires { steps.IsRawMove (asked_move step) }
    ensures accepted { OnOk result (steps.Accepts bench.old (asked_move step.entry) bench.new) }
    ensures refused { IfErr result (λ fault. fault ≢ EditFault.NoMemory → steps.IsRefused bench.old (asked_move step.entry) fault) }
    ensures unchanged { OnErr result (bench.new ≡ bench.old) }
    ensures memory { IsErrOf result EditFault.NoMemory → MoveTakesMemory (asked_move step.entry) }
    ensures within { IsHistory bench.new }
{
    match step {
        Move::Edits(edit) => bench.edit(&edit),
        Move::Undoes => bench.undo(),
        Move::Redoes => bench.redo(),
    }
}

// Carries out an edit, an undo or a redo, and answers it.
fn move_answer(alloc: Global, bench: &mut Bench, step: Move<'_>) -> Result<Vec<u8>, NoMemory>
    requires { steps.IsRawMove (asked_move step) }
    ensures answered { IfOk result (λ text. Moves bench.old (asked_move step.entry) bench.new text.items) }
    ensures halfway { OnErr result (IsHalfway (MoveTakesMemory (asked_move step.entry)) bench.old bench.new (Moves bench.old (asked_move step.entry) bench.new)) }
    ensures within { IsHistory bench.new }
{
    match carry_out(bench, step) {
        Ok(()) => accepted(alloc, bench),
        Err(EditFault::NoMemory) => Err(NoMemory),
        Err(fault) => refused_text(alloc, fault.as_str()),
    }
}

/// Carries out the act and makes its answer; where it takes a product, it takes the first. Where
/// memory is wanting, the bench stands before the act or after it; after it where the act is an undo
/// or a redo, which takes none.
pub(crate) fn answer(
    alloc: Global,
    bench: &mut Bench,
    act: &Act,
    products: &[Colouring],
    visitor: &mut dyn Visitor,
) -> Result<Vec<u8>, NoMemory>
    requires product { HasProduct products.now act.now }
    requires limit { KeepsLimit act.now }
    requires history { IsHistory bench.old }
    ensures answered { IfOk result (λ text. Answers bench.old products.now act.now bench.new text.items) }
    ensures halfway { OnErr result (IsHalfway (TakesMemory act.now) bench.old bench.new (Answers bench.old products.now act.now bench.new)) }
    ensures within { IsHistory bench.new }
{
    match asked_for(act, products) {
        Some(step) => move_answer(alloc, bench, step),
        None => query_answer(alloc, bench, act, visitor),
    }
}
