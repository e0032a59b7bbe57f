//! The least closed subset that holds a class: it is everything exactly where the pairs of the
//! class, taken in both directions, join each point to point 0.

ghost use Rattle.std.specs.Prelude.{◌≡◌, ◌↔◌, ◌≤◌, ◌<◌, true, false, All, Any, IsTrue, IfOk, OnOk, MatchBool};
ghost use Rattle.std.specs.Bool.{OnTrue, OnFalse};
ghost use Rattle.pair_colours.specs.Colouring.{colour_at};
ghost use Rattle.pair_colours.specs.Naming.{rank_of};
ghost use Rattle.scheme_tests.specs.SchemeTests.{Homogeneous, Primitive, Spans, HasProperSet};
ghost use Rattle.scheme_tests.specs.Steps.{Step, MarksReached, IsSpread, IsSpreadTo, work_left};

use pair_colours::{Colouring, NoMemory};
use std::alloc::Global;
use struct_consts::Constants;

// Whether each class off the diagonal spans everything.
pub(crate) fn all_span(alloc: Global, k: &Constants) -> Result<bool, NoMemory>
    requires homogeneous { Homogeneous k.now }
    requires rank { 2 ≤ rank_of k.now }
    ensures { IfOk result (λ answer. IsTrue answer ↔ Primitive k.now) }
{
    let diagonal = k.colouring().get(0, 0);
    for class in 0..k.rank() {
        if class == diagonal {
            continue;
        }
        if !spans(alloc, k, class)? {
            return Ok(false);
        }
    }
    Ok(true)
}

// Whether the least closed subset that holds a class is everything.
fn spans(alloc: Global, k: &Constants, class: u32) -> Result<bool, NoMemory>
    requires homogeneous { Homogeneous k.now }
    requires class { class < rank_of k.now }
    ensures { IfOk result (λ answer. MatchBool answer (Spans k.now class) (HasProperSet k.now class)) }
{
    let marks = reached(alloc, k.colouring(), class)?;
    Ok(all_marked(&marks))
}

fn all_marked(marks: &[bool]) -> bool
    ensures all { OnTrue result (All (λ mark. mark ≡ true) marks.now) }
    ensures some { OnFalse result (Any (λ mark. mark ≡ false) marks.now) }
{
    marks.iter().all(|mark| *mark)
}

// Marks the points that steps along a class reach from point 0.
fn reached(alloc: Global, k: &Colouring, class: u32) -> Result<Vec<bool>, NoMemory>
    ensures { IfOk result (λ marks. MarksReached k.now class marks.items) }
{
    let mut marks = vec![in alloc; false; k.size() as usize]?;
    marks[0] = true;
    let mut waiting = Vec::new(alloc);
    waiting.push(0)?;
    while let Some(x) = waiting.pop() {
        spread(k, class, x, &mut marks, &mut waiting)?;
    }
    Ok(marks)
}

// Marks the points that one step reaches from x; those that are new will wait.
fn spread(
    k: &Colouring,
    class: u32,
    x: u32,
    marks: &mut Vec<bool>,
    waiting: &mut Vec<u32>,
) -> Result<(), NoMemory>
    requires { IsSpreadTo k.now class x 0 marks.old.items waiting.old.items }
    ensures spread { OnOk result (IsSpread k.now class marks.new.items waiting.new.items) }
    ensures work { OnOk result (work_left marks.new.items waiting.new.items ≡ work_left marks.old.items waiting.old.items) }
{
    for y in 0..k.size() {
        if !marks[y as usize] && is_step(k, class, x, y) {
            marks[y as usize] = true;
            waiting.push(y)?;
        }
    }
    Ok(())
}

// Whether (x, y) or (y, x) is a pair of the class.
fn is_step(k: &Colouring, class: u32, x: u32, y: u32) -> bool
    requires row { x < k.now.size }
    requires column { y < k.now.size }
    ensures { IsTrue result ↔ Step k.now class x y }
{
    k.get(x, y) == class || k.get(y, x) == class
}
