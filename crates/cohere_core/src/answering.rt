//! The answers of a script, line by line.

ghost use Rattle.std.specs.Prelude.{◌≡◌, ◌≤◌, OnOk, IfErr, IsErrOf};
ghost use Rattle.scheme_io.specs.Count.{Rose};
ghost use Rattle.pair_colours.specs.Colouring.{IsRawColouring};
ghost use Rattle.recolour_bench.specs.History.{IsHistory};
ghost use Rattle.cohere_core.specs.Answer.{Answered, KeepLimits, Stopped};
ghost use Rattle.cohere_core.specs.Added.{AddsText, AddsUntil};
ghost use Rattle.cohere_core.specs.Output.{ScriptOutput};
ghost use Rattle.cohere_core.specs.Products.{AreProducts, left_by};

use crate::answers::answer;
use pair_colours::{Colouring, NoMemory};
use recolour_bench::Bench;
use scheme_io::{Sink, SinkFault, put_all};
use script_text::{Act, Line};
use std::alloc::Global;
use visitors::Visitor;

/// Why the answers were not written whole.
#[derive(Clone, Copy, Debug, PartialEq, Eq)]
pub enum SessionFault {
    /// The sink failed.
    SinkFailed,
    /// There is not enough memory.
    NoMemory,
}

impl From<NoMemory> for SessionFault {
    ghost use Rattle.std.specs.Prelude.{◌≡◌};
    ghost use Rattle.cohere_core.specs.declared.answering.SessionFault.TheVariants.{NoMemory as WantOfMemory};

    ghost from_gives = { λ _ fault. fault ≡ WantOfMemory };

    fn from(_error: NoMemory) -> SessionFault {
        SessionFault::NoMemory
    }
}

impl From<SinkFault> for SessionFault {
    ghost use Rattle.std.specs.Prelude.{◌≡◌};
    ghost use Rattle.cohere_core.specs.declared.answering.SessionFault.TheVariants.{SinkFailed};

    ghost from_gives = { λ _ fault. fault ≡ SinkFailed };

    fn from(_fault: SinkFault) -> SessionFault {
        SessionFault::SinkFailed
    }
}

// The products that an act leaves.
fn left_by<'a>(products: &'a [Colouring], act: &Act) -> &'a [Colouring]
    ensures { result.now ≡ left_by products.now act.now }
{
    match act {
        Act::Direct { .. } | Act::Wreath { .. } => match products {
            [_, left @ ..] => left,
            [] => products,
        },
        _ => products,
    }
}

/// Answers the lines in order, each answer made whole before its first byte is written. There is a
/// product for each line that takes one: the first such line takes the first of them, and so on.
///
/// A line that is refused is answered by the name of the refusal, and changes nothing. After a
/// fault the bench stands before the line that was not answered, or after it (after it where the
/// line is an undo or a redo); what was written is the answers of the lines before it, and where
/// the sink failed a proper front of its answer. A further session goes on from there: the lines that are
/// left have answers from every history (`laws::outputs`).
///
/// Lines that list sets or strings begin the visitor, and read from it what it met. What it holds
/// afterwards is open. A line may ask for 1 to 10000 fusions, and for a trace of version 1 or 2.
pub fn session<O: Sink>(
    alloc: Global,
    bench: &mut Bench,
    lines: &[Line],
    products: &[Colouring],
    out: &mut O,
    visitor: &mut dyn Visitor,
) -> Result<(), SessionFault>
    requires limits { KeepLimits lines.now }
    requires products { AreProducts products.now lines.now }
    ensures answered { OnOk result (Answered bench.old products.now lines.now bench.new (O.written out.old) (O.written out.new)) }
    ensures stopped { IfErr result (λ fault. Stopped fault bench.old products.now lines.now bench.new (O.written out.old) (O.written out.new)) }
    ensures failed { IsErrOf result SessionFault.SinkFailed → Rose (O.faults out.old) (O.faults out.new) }
    ensures later { O.faults out.old ≤ O.faults out.new }
    ensures within { IsHistory bench.new }
{
    // Read for its clause alone: the bench stands for a history.
    let _start = bench.position();
    let mut left = products;
    for line in lines {
        let text = answer(alloc, bench, &line.act, left, &mut *visitor)?;
        put_all(out, &text)?;
        left = left_by(left, &line.act);
    }
    Ok(())
}

/// Answers the lines over a relation.
pub(crate) fn answer_script<O: Sink>(
    alloc: Global,
    relation: Colouring,
    lines: &[Line],
    products: &[Colouring],
    out: &mut O,
    visitor: &mut dyn Visitor,
) -> Result<(), SessionFault>
    requires raw { IsRawColouring relation }
    requires limits { KeepLimits lines.now }
    requires products { AreProducts products.now lines.now }
    ensures all { OnOk result (AddsText (ScriptOutput relation products.now lines.now) (O.written out.old) (O.written out.new)) }
    ensures front { IfErr result (λ fault. AddsUntil fault (ScriptOutput relation products.now lines.now) (O.written out.old) (O.written out.new)) }
    ensures failed { IsErrOf result SessionFault.SinkFailed → Rose (O.faults out.old) (O.faults out.new) }
{
    let mut bench = Bench::new(alloc, relation)?;
    session(alloc, &mut bench, lines, products, out, visitor)
}
