//! Lines on standard error. They take no memory, and a failure of the sink changes no answer.

ghost use Rattle.std.specs.Prelude.{◌≡◌, ◌++◌, flat_map, codes};
ghost use Rattle.cohere_inputs.specs.Said.{AddsLine};
ghost use Rattle.cohere_inputs.specs.Lines.{usage_line, memory_line, unread_line, too_long_line, place_line, numbered_line, fault_line, halt_line};

use crate::faults::{FileFault, Halt, Unread};
use scheme_io::{Sink, SinkFault, put_all};

// Writes the pieces, up to a fault of the sink.
fn say<E: Sink>(err: &mut E, pieces: &[&[u8]])
    ensures { AddsLine E.written E.faults err.old err.new (flat_map (λ piece. piece.now) pieces.now) }
{
    for piece in pieces {
        match put_all(err, piece) {
            Ok(()) => {}
            Err(SinkFault) => return,
        }
    }
}

/// Says how the program is called.
pub fn say_usage<E: Sink>(err: &mut E)
    ensures { AddsLine E.written E.faults err.old err.new usage_line }
{
    say(
        err,
        &[
            b"usage: cohere run RELATION SCRIPT [LINE] | cohere check TRACE | cohere demo NUMBER",
            b" | cohere ring TABLE COLOUR... | cohere cells RELATION COLOUR... | cohere check-cells TRACE",
            b" | cohere table D NUMBER... | cohere lattice RELATION [I J]\n",
        ],
    );
}

/// Says that there is not enough memory.
pub fn say_no_memory<E: Sink>(err: &mut E)
    ensures { AddsLine E.written E.faults err.old err.new memory_line }
{
    say(err, &[b"cohere: out of memory\n"]);
}

// Says that a file could not be read.
fn say_unread<E: Sink>(err: &mut E, name: &str)
    ensures { AddsLine E.written E.faults err.old err.new (unread_line name.now) }
{
    say(err, &[b"cohere: cannot read ", name.as_bytes(), b"\n"]);
}

fn say_too_long<'a, E: Sink>(err: &mut E, name: &'a [u8])
    ensures { AddsLine E.written E.faults err.old err.new (too_long_line name.now) }
{
    say(err, &[b"cohere: ", name, b": TooLong\n"]);
}

// Says what is wrong with a file, and at which byte, given in digits.
fn say_at_digits<'a, E: Sink>(err: &mut E, name: &'a [u8], word: &'a [u8], digits: &'a [u8])
    ensures { AddsLine E.written E.faults err.old err.new
        (codes "cohere: " ++ name.now ++ codes ": " ++ word.now ++ codes " at " ++ digits.now ++ codes "\n") }
{
    say(
        err,
        &[b"cohere: ", name, b": ", word, b" at ", digits, b"\n"],
    );
}

fn say_place<E: Sink>(err: &mut E, name: &str, word: &[u8], place: u32)
    ensures { AddsLine E.written E.faults err.old err.new (place_line name.now word.now place) }
{
    let mut buffer = itoa::Buffer::new();
    say_at_digits(err, name.as_bytes(), word, buffer.format(place).as_bytes());
}

// Says what is wrong with a file, and on which line, given in digits.
fn say_on_digits<'a, E: Sink>(err: &mut E, name: &'a [u8], digits: &'a [u8], word: &'a [u8])
    ensures { AddsLine E.written E.faults err.old err.new
        (codes "cohere: " ++ name.now ++ codes ": line " ++ digits.now ++ codes " " ++ word.now ++ codes "\n") }
{
    say(
        err,
        &[b"cohere: ", name, b": line ", digits, b" ", word, b"\n"],
    );
}

fn say_line<E: Sink>(err: &mut E, name: &str, line: u32, word: &[u8])
    ensures { AddsLine E.written E.faults err.old err.new (numbered_line name.now line word.now) }
{
    let mut buffer = itoa::Buffer::new();
    say_on_digits(err, name.as_bytes(), buffer.format(line).as_bytes(), word);
}

// Says why a file is bad.
fn say_fault<E: Sink>(err: &mut E, name: &str, fault: FileFault)
    ensures { AddsLine E.written E.faults err.old err.new (fault_line name.now fault) }
{
    match fault {
        FileFault::Missing => say_unread(err, name),
        FileFault::TooLong => say_too_long(err, name.as_bytes()),
        FileFault::Relation { what, at } => say_place(err, name, what.as_str().as_bytes(), at),
        FileFault::Script { line, what } => say_line(err, name, line, what.as_str().as_bytes()),
        FileFault::Trace { line, what } => say_line(err, name, line, what.as_str().as_bytes()),
        FileFault::CellTrace { line, what } => {
            say_line(err, name, line, what.as_str().as_bytes());
        }
    }
}

/// Says why a file was not read.
pub fn say_halt<E: Sink>(err: &mut E, halt: &Halt<'_>)
    ensures { AddsLine E.written E.faults err.old err.new (halt_line halt.now.name.now halt.now.why) }
{
    match halt.why {
        Unread::Bad(fault) => say_fault(err, halt.name, fault),
        Unread::StoreFailed => say_unread(err, halt.name),
        Unread::NoMemory => say_no_memory(err),
    }
}
