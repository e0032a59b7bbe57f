//! The forms `check TRACE` and `check-cells TRACE`: their words, and what is read for them.

ghost use Rattle.std.specs.Prelude.{◌≡◌, ◌^◌, ◌<◌, ◌≤◌, length, Some, None, MatchOption, IfSome, IfOk, IfErr};
ghost use Rattle.scheme_io.specs.Count.{Rose};
ghost use Rattle.trace_text.specs.BadLines.{line_count};
ghost use Rattle.equitable.specs.BadLines as cells;
ghost use Rattle.cohere_inputs.specs.Bad.{IsCellTraceFile, IsTraceFile};
ghost use Rattle.cohere_inputs.specs.CheckForm.{check_in};
ghost use Rattle.cohere_inputs.specs.Task.{Check, CheckCells};
ghost use Rattle.cohere_inputs.specs.Unread.{Halts};
ghost use Rattle.cohere_inputs.specs.Words.{texts};

use crate::faults::Halt;
use crate::files::{cell_claim_in, claim_in};
use equitable::CellClaim;
use scheme_io::Store;
use std::alloc::Global;
use trace_text::Claim;

// The name of the trace's file, where the words after `check` or `check-cells` are one.
pub(crate) fn check_words(words: &[String]) -> Option<&str>
    ensures { MatchOption result (check_in (texts words.now) ≡ None) (λ trace. check_in (texts words.now) ≡ Some trace.now) }
{
    match words {
        [trace] => Some(trace.as_str()),
        _ => None,
    }
}

/// Reads the claim that is to be judged.
pub fn check_input<'a, S: Store>(
    alloc: Global,
    store: &mut S,
    trace: &'a str,
) -> Result<Claim, Halt<'a>>
    ensures same_files { S.files store.new ≡ S.files store.old }
    ensures later { S.faults store.old ≤ S.faults store.new }
    ensures has_stage { IfOk result (λ claim. 1 ≤ length claim.chain) }
    ensures lines { IfOk result (λ claim. line_count claim < 2 ^ 32) }
    ensures read { IfOk result (λ claim. IfSome (S.files store.old) (λ files. IsTraceFile files trace.now claim)) }
    ensures halt { IfErr result (λ halt.
        Halts (S.files store.old) (Check trace.now) halt.name.now halt.why (Rose (S.faults store.old) (S.faults store.new))) }
{
    match claim_in(alloc, store, trace) {
        Ok(claim) => Ok(claim),
        Err(why) => Err(Halt { name: trace, why }),
    }
}

/// Reads the claim of cells that is to be judged.
pub fn cells_input<'a, S: Store>(
    alloc: Global,
    store: &mut S,
    trace: &'a str,
) -> Result<CellClaim, Halt<'a>>
    ensures same_files { S.files store.new ≡ S.files store.old }
    ensures later { S.faults store.old ≤ S.faults store.new }
    ensures lines { IfOk result (λ claim. cells.line_count claim < 2 ^ 32) }
    ensures read { IfOk result (λ claim. IfSome (S.files store.old) (λ files. IsCellTraceFile files trace.now claim)) }
    ensures halt { IfErr result (λ halt.
        Halts (S.files store.old) (CheckCells trace.now) halt.name.now halt.why (Rose (S.faults store.old) (S.faults store.new))) }
{
    match cell_claim_in(alloc, store, trace) {
        Ok(claim) => Ok(claim),
        Err(why) => Err(Halt { name: trace, why }),
    }
}
