//! Visitors that refuse an entry: no memory is told to be wanting by any other row.

ghost use Rattle.std.specs.Prelude.{◌≡◌, All, IfOk, length};
ghost use Rattle.pair_colours.specs.Colouring.{IsRawColouring};
ghost use Rattle.script_text.specs.Script.{KeepsLimit, product_count};

use crate::runs::{Ending, RUN, done, ends_by, script_store, words_of};
use crate::tasks::{CUBE, SHOWN};
use cohere_core::{SessionFault, Status, session};
use cohere_inputs::{RunInputs, Task, run_inputs, task_of};
use recolour_bench::Bench;
use scheme_io::MemorySink;
use std::alloc::Global;
use std::process::Abort;
use std::test::Fail;
use visitors::{Refusing, Visitor};

// The script over the cube ends so, with a visitor that refuses the entry after so many.
fn ends_refusing(
    rt: &impl Abort,
    alloc: Global,
    after: u32,
    script: &[u8],
    ending: Ending<'_>,
) -> Result<(), Fail> {
    let row = after as usize;
    let mut store = script_store(alloc, CUBE, script)?;
    let mut out = MemorySink::new(alloc, 1000, 1000)?;
    let visitor: Box<dyn Visitor> = Box::new(alloc, Refusing::new(alloc, after))?;
    ends_by(rt, alloc, row, &RUN, &mut store, &mut out, ending, visitor)
}

// The cube has four fusions: a visitor that refuses one of them leaves what was answered before.
#[test]
fn visitors_that_refuse(rt: HostRuntime) -> Result<(), Fail> {
    let refused = Ending {
        status: Status::NoMemory,
        output: SHOWN,
        line: b"cohere: out of memory\n",
    };
    for after in 0..4u32 {
        ends_refusing(
            &rt,
            rt.alloc(),
            after,
            b"show\nmergings 10\nshow\n",
            refused,
        )?;
    }
    let met = done(b"mergings\n0 1 1 1\n0 1 1 2\n0 1 2 1\n0 1 2 3\nend\n");
    ends_refusing(&rt, rt.alloc(), 4, b"mergings 10\n", met)?;
    assert_eq!(rt; Status::NoMemory.code(), 6);
    Ok(())
}

// What is read for a run of the script over the cube.
fn inputs_of(rt: &impl Abort, alloc: Global, script: &[u8]) -> Result<RunInputs, Fail>
    ensures raw { IfOk result (λ inputs. IsRawColouring inputs.relation) }
    ensures limits { IfOk result (λ inputs. All (λ line. KeepsLimit line.act) inputs.lines.items) }
    ensures products { IfOk result (λ inputs. All IsRawColouring inputs.products.items) }
    ensures one_each { IfOk result (λ inputs. length inputs.products.items ≡ product_count inputs.lines.items) }
{
    let words = words_of(alloc, &RUN)?;
    let Some(Task::Run(run)) = task_of(&words) else {
        panic!(rt; "these words ask for a run");
    };
    let mut store = script_store(alloc, CUBE, script)?;
    let mut err = MemorySink::new(alloc, 5, 1000)?;
    let inputs = run_inputs(alloc, &mut store, run, &mut err)?;
    Ok(inputs)
}

// The lines before the refusal were carried out, and no other: the bench stands at its second
// entry, and the third is still there.
#[test]
fn a_bench_after_a_refusal(rt: HostRuntime) -> Result<(), Fail> {
    let alloc = rt.alloc();
    let mut visitor: Box<dyn Visitor> = Box::new(alloc, Refusing::new(alloc, 2))?;
    let mut out = MemorySink::new(alloc, 1000, 1000)?;
    let inputs = inputs_of(&rt, alloc, b"adopt\nadopt\nundo\nmergings 10\nredo\n")?;
    let mut bench = Bench::new(alloc, inputs.relation)?;
    let answer = session(
        alloc,
        &mut bench,
        &inputs.lines,
        &inputs.products,
        &mut out,
        &mut *visitor,
    );
    assert_eq!(rt; answer.err(), Some(SessionFault::NoMemory));
    let output = b"ok points 8 rank 4\nok points 8 rank 4\nok points 8 rank 4\n";
    assert_eq!(rt; out.written(), output.as_slice());
    assert_eq!(rt; bench.position(), 1);
    assert_eq!(rt; bench.last_position(), 2);
    assert_eq!(rt; bench.closure().rank(alloc)?, 4);
    Ok(())
}
