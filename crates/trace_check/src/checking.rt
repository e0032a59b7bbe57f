//! Whether a claim is accepted.

ghost use Rattle.std.specs.Prelude.{◌≡◌, ◌^◌, ◌<◌, ◌≤◌, length, None, IfOk};
ghost use Rattle.trace_text.specs.BadLines.{line_count};
ghost use Rattle.trace_check.specs.Verdict.{IsVerdict};

use crate::ending::end_fault;
use crate::replaying::{Ended, replay};
use crate::verdicts::Verdict;
use pair_colours::NoMemory;
use std::alloc::Global;
use trace_text::Claim;

// The line on which the first stage begins.
const FIRST_LINE: u32 = 3;

// Decides whether a claim is accepted. `last` becomes where its last stage ends.
fn check_after<'a>(
    alloc: Global,
    claim: &'a Claim,
    last: &mut Option<Ended<'a>>,
) -> Result<Verdict, NoMemory>
    requires has_stage { 1 ≤ length claim.now.chain }
    requires lines { line_count claim.now < 2 ^ 32 }
    requires none { last.old ≡ None }
    ensures { IfOk result (λ verdict. IsVerdict claim.now verdict) }
{
    let mut line = FIRST_LINE;
    let mut steps = 0;
    for stage in claim.chain.as_slice() {
        if let Some(bad) = replay(alloc, last, stage, line)? {
            return Ok(Verdict::Refused {
                line: bad.line,
                what: bad.what,
            });
        }
        line += 1 + stage.colours.size() + stage.steps.len();
        steps += stage.steps.len();
    }
    let Some(end) = last else {
        unreachable!();
    };
    match end_fault(alloc, &end.cells, &claim.closure)? {
        None => Ok(Verdict::Accepted {
            points: claim.closure.size(),
            rank: claim.closure.rank(alloc)?,
            steps,
        }),
        Some(what) => Ok(Verdict::Refused { line, what }),
    }
}

/// Decides whether a claim is accepted: each stage is replayed, and the partition where the last one
/// ends is tested for coherence and compared with the claimed closure. The answer is that of the
/// definitions, since a claim is accepted or has exactly one first bad line (`trace_text::laws`); and
/// the closure of an accepted claim is that of the colours of its last stage.
pub fn check(alloc: Global, claim: &Claim) -> Result<Verdict, NoMemory>
    requires has_stage { 1 ≤ length claim.now.chain }
    requires lines { line_count claim.now < 2 ^ 32 }
    ensures { IfOk result (λ verdict. IsVerdict claim.now verdict) }
{
    let mut last: Option<Ended<'_>> = None;
    check_after(alloc, claim, &mut last)
}
