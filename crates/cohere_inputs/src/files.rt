//! A file that holds a relation, a script, a trace or a trace of cells.

ghost use Rattle.std.specs.Prelude.{◌≡◌, ◌^◌, ◌<◌, ◌≤◌, length, All, IfOk, IfErr, IfSome};
ghost use Rattle.scheme_io.specs.Count.{Rose};
ghost use Rattle.pair_colours.specs.Colouring.{IsRawColouring};
ghost use Rattle.script_text.specs.Script.{KeepsLimit};
ghost use Rattle.trace_text.specs.BadLines.{line_count};
ghost use Rattle.equitable.specs.BadLines as cells;
ghost use Rattle.cohere_inputs.specs.Bad.{IsCellTraceFile, IsRelationFile, IsScriptFile, IsTraceFile};
ghost use Rattle.cohere_inputs.specs.Kind as kinds;
ghost use Rattle.cohere_inputs.specs.Needs.{cell_trace_need, relation_need, script_need, trace_need};
ghost use Rattle.cohere_inputs.specs.Unread.{IsCause, IsUnreadAs, IsSomeScript};

use crate::faults::Unread;
use equitable::{CellClaim, MOST_CELL_TEXT, read_cells};
use pair_colours::Colouring;
use relation_text::{MOST_RELATION, read_relation};
use scheme_io::{Store, load};
use script_text::{Line, MOST_SCRIPT, read_script};
use std::alloc::Global;
use trace_text::{Claim, MOST_TRACE, read_trace};

/// Loads the file of a relation, and reads it at a line.
pub(crate) fn relation_in<S: Store>(
    alloc: Global,
    store: &mut S,
    name: &str,
    line: u32,
) -> Result<Colouring, Unread>
    requires { 1 ≤ line }
    ensures same_files { S.files store.new ≡ S.files store.old }
    ensures later { S.faults store.old ≤ S.faults store.new }
    ensures raw { IfOk result IsRawColouring }
    ensures read { IfOk result (λ C. IfSome (S.files store.old) (λ files. IsRelationFile files name.now line C)) }
    ensures cause { IfErr result (λ why.
        IsCause (S.files store.old) (relation_need name.now line) why (Rose (S.faults store.old) (S.faults store.new))) }
    ensures form { IfErr result (IsUnreadAs (kinds.Relation line)) }
{
    let bytes = load(alloc, store, name, MOST_RELATION)?;
    Ok(read_relation(alloc, &bytes, line)?)
}

/// Loads the file of a script, and reads it.
pub(crate) fn script_in<S: Store>(
    alloc: Global,
    store: &mut S,
    name: &str,
) -> Result<Vec<Line>, Unread>
    ensures same_files { S.files store.new ≡ S.files store.old }
    ensures later { S.faults store.old ≤ S.faults store.new }
    ensures text { IfOk result (λ lines. IsSomeScript lines.items) }
    ensures limits { IfOk result (λ lines. All (λ line. KeepsLimit line.act) lines.items) }
    ensures read { IfOk result (λ lines. IfSome (S.files store.old) (λ files. IsScriptFile files name.now lines.items)) }
    ensures cause { IfErr result (λ why.
        IsCause (S.files store.old) (script_need name.now) why (Rose (S.faults store.old) (S.faults store.new))) }
    ensures form { IfErr result (IsUnreadAs kinds.Script) }
{
    let bytes = load(alloc, store, name, MOST_SCRIPT)?;
    Ok(read_script(alloc, &bytes)?)
}

/// Loads the file of a trace, and reads it.
pub(crate) fn claim_in<S: Store>(alloc: Global, store: &mut S, name: &str) -> Result<Claim, Unread>
    ensures same_files { S.files store.new ≡ S.files store.old }
    ensures later { S.faults store.old ≤ S.faults store.new }
    ensures has_stage { IfOk result (λ claim. 1 ≤ length claim.chain) }
    ensures lines { IfOk result (λ claim. line_count claim < 2 ^ 32) }
    ensures read { IfOk result (λ claim. IfSome (S.files store.old) (λ files. IsTraceFile files name.now claim)) }
    ensures cause { IfErr result (λ why.
        IsCause (S.files store.old) (trace_need name.now) why (Rose (S.faults store.old) (S.faults store.new))) }
    ensures form { IfErr result (IsUnreadAs kinds.Trace) }
{
    let bytes = load(alloc, store, name, MOST_TRACE)?;
    Ok(read_trace(alloc, &bytes)?)
}

/// Loads the file of a trace of cells, and reads it.
pub(crate) fn cell_claim_in<S: Store>(
    alloc: Global,
    store: &mut S,
    name: &str,
) -> Result<CellClaim, Unread>
    ensures same_files { S.files store.new ≡ S.files store.old }
    ensures later { S.faults store.old ≤ S.faults store.new }
    ensures lines { IfOk result (λ claim. cells.line_count claim < 2 ^ 32) }
    ensures read { IfOk result (λ claim. IfSome (S.files store.old) (λ files. IsCellTraceFile files name.now claim)) }
    ensures cause { IfErr result (λ why.
        IsCause (S.files store.old) (cell_trace_need name.now) why (Rose (S.faults store.old) (S.faults store.new))) }
    ensures form { IfErr result (IsUnreadAs kinds.CellTrace) }
{
    let bytes = load(alloc, store, name, MOST_CELL_TEXT)?;
    Ok(read_cells(alloc, &bytes)?)
}
