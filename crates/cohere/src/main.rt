//! The program `cohere`: hands its words to `cohere_core::run`, over the files, the standard input
//! and the two outputs of the machine, with a visitor that packs what it meets. The types of the
//! outputs say which is which.
#![tactic(auto)]

ghost use Rattle.std.specs.Prelude.{◌≡◌, ◌↔◌, None};
ghost use Rattle.cohere_inputs.specs.Words.{texts, task_of, IfAsked};
ghost use Rattle.cohere_core.specs.Run.{IsBeforeOutput, IsQuiet, OutputAfter};

use cohere_core::{Status, run};
use scheme_io::{HostSink, HostStore};
use std::alloc::Global;
use std::env;
use std::io::Write;
use std::process::ExitCode;
use std::rt::{Files, Stderr, Stdout};
use visitors::{Packed, Visitor};

/// The exit status where the machine does not give the program its words. No `Status` has it.
const NO_WORDS: u8 = 7;

fn main(rt: HostRuntime) -> ExitCode {
    let Ok(words) = env::args(&rt) else {
        return ExitCode::from(NO_WORDS);
    };
    let Ok(words) = words.skip(1).collect::<Vec<String>>(rt.alloc()) else {
        return ExitCode::from(Status::NoMemory.code());
    };
    let Ok(visitor) = Box::new(rt.alloc(), Packed::new(rt.alloc())) else {
        return ExitCode::from(Status::NoMemory.code());
    };
    let visitor: Box<dyn Visitor> = visitor;
    let out: Stdout = rt.stdout();
    let err: Stderr = rt.stderr();
    let (status, _out, _err) = answer(rt.alloc(), &words, &rt, out, err, visitor);
    ExitCode::from(status.code())
}

// Runs the words over the files and the input of a machine, with two writers of std, which it gives
// back. What was added to them is what `run` adds, where std tells what they hold. The machine does
// not tell its files.
fn answer<R: Files + Input, O: Write + Drop, E: Write + Drop>(
    alloc: Global,
    words: &[String],
    rt: &R,
    out: O,
    err: E,
    visitor: Box<dyn Visitor>,
) -> (Status, O, E)
    ensures output { IfAsked words.now (λ task. OutputAfter task result.0 None (O.contents out) (O.contents result.1)) }
    ensures same_out { IsBeforeOutput result.0 → O.contents result.1 ≡ O.contents out }
    ensures quiet { IsQuiet result.0 → E.contents result.2 ≡ E.contents err }
    ensures usage { (result.0 ≡ Status.Usage) ↔ (task_of (texts words.now) ≡ None) }
{
    let mut store = HostStore::new(rt);
    let mut out = HostSink::new(out);
    let mut err = HostSink::new(err);
    let status = run(alloc, words, &mut store, &mut out, &mut err, visitor);
    (status, out.into_writer(), err.into_writer())
}
