//! How a task ends where a file was not read, or where the answers were not written whole.

ghost use Rattle.std.specs.Prelude.{◌≡◌};
ghost use Rattle.cohere_inputs.specs.Lines.{halt_line};
ghost use Rattle.cohere_inputs.specs.Said.{AddsLine};
ghost use Rattle.cohere_core.specs.Ending.{fault_status, halt_status};
ghost use Rattle.cohere_core.specs.Run.{IsQuiet, LineAfter};

use crate::Status;
use crate::answering::SessionFault;
use cohere_inputs::{FileFault, Halt, Unread, say_halt, say_no_memory};
use scheme_io::Sink;

/// The status where a file was not read for this reason.
pub(crate) fn status_of_halt(why: Unread) -> Status
    ensures { result ≡ halt_status why }
{
    match why {
        Unread::Bad(FileFault::Missing) | Unread::StoreFailed => Status::StoreFailed,
        Unread::Bad(_) => Status::BadInput,
        Unread::NoMemory => Status::NoMemory,
    }
}

/// Says why a file was not read, and gives the status.
pub(crate) fn report<E: Sink>(err: &mut E, halt: Halt<'_>) -> Status
    ensures status { result ≡ halt_status halt.entry.why }
    ensures line { AddsLine E.written E.faults err.old err.new (halt_line halt.entry.name.now halt.entry.why) }
{
    say_halt(err, &halt);
    status_of_halt(halt.why)
}

/// The status where the answers were not written whole. Where memory is wanting, this is said.
pub(crate) fn status_of_fault<E: Sink>(err: &mut E, fault: SessionFault) -> Status
    ensures status { result ≡ fault_status fault }
    ensures quiet { IsQuiet result → err.new ≡ err.old }
    ensures line { LineAfter result (AddsLine E.written E.faults err.old err.new) }
{
    match fault {
        SessionFault::SinkFailed => Status::SinkFailed,
        SessionFault::NoMemory => {
            say_no_memory(err);
            Status::NoMemory
        }
    }
}
