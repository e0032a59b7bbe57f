//! The lines of the demonstration.

ghost use Rattle.std.specs.Prelude.{◌≡◌, IfOk};
ghost use Rattle.script_text.specs.Script.{IsScript};
ghost use Rattle.scheme_demo.specs.Demonstration.{demo_lines_of, demo_text};

use pair_colours::NoMemory;
use script_text::{Act, Line};
use std::alloc::Global;

/// The seven lines that are answered over the relation of every number.
pub fn demo_lines(alloc: Global) -> Result<Vec<Line>, NoMemory>
    ensures demo { IfOk result (λ lines. lines.items ≡ demo_lines_of) }
    ensures script { IfOk result (λ lines. IsScript demo_text lines.items) }
{
    let both = Act::Both {
        x: 0,
        y: 1,
        colour: 4,
    };
    let join = Act::Join { keep: 2, gone: 3 };
    let lines = vec![in alloc;
        line(1, Act::Tests),
        line(2, both),
        line(3, Act::Undo),
        line(4, join),
        line(5, Act::Tests),
        line(6, Act::Fix { x: 0 }),
        line(7, Act::Adopt),
    ]?;
    Ok(lines)
}

// The line with this number, which asks for the act.
fn line(number: u32, act: Act) -> Line
    ensures { (result.number ≡ number) × (result.act ≡ act) }
{
    Line { number, act }
}
