//! The five tests.

ghost use Rattle.std.specs.Prelude.{◌↔◌, ◌<◌, IsTrue, IfOk};
ghost use Rattle.pair_colours.specs.Colouring.{PairColouring};
ghost use Rattle.pair_colours.specs.Naming.{rank_of};
ghost use Rattle.struct_consts.specs.ClassData.{IsConfiguration};
ghost use Rattle.scheme_tests.specs.SchemeTests.{Homogeneous, Symmetric, Commutative, CommutesAt, Thin, Primitive};

use crate::spans::all_span;
use pair_colours::{NoMemory, has_one_fibre};
use std::alloc::Global;
use struct_consts::Constants;

/// The answers of the five tests. An association scheme is a homogeneous configuration; in some
/// books a symmetric one, in others a commutative one.
#[derive(Clone, Copy, Debug, PartialEq, Eq)]
pub struct SchemeTests {
    pub homogeneous: bool,
    pub symmetric: bool,
    pub commutative: bool,
    pub thin: bool,
    pub primitive: bool,
}

/// Runs all five tests, at any rank.
pub fn tests(alloc: Global, k: &Constants) -> Result<SchemeTests, NoMemory>
    ensures homogeneous { IfOk result (λ t. IsTrue t.homogeneous ↔ Homogeneous k.now) }
    ensures symmetric { IfOk result (λ t. IsTrue t.symmetric ↔ Symmetric k.now) }
    ensures commutative { IfOk result (λ t. IsTrue t.commutative ↔ Commutative k.now) }
    ensures thin { IfOk result (λ t. IsTrue t.thin ↔ Thin k.now) }
    ensures primitive { IfOk result (λ t. IsTrue t.primitive ↔ Primitive k.now) }
{
    Ok(SchemeTests {
        homogeneous: is_homogeneous(k),
        symmetric: is_symmetric(k),
        commutative: is_commutative(k),
        thin: is_thin(k),
        primitive: is_primitive(alloc, k)?,
    })
}

fn is_homogeneous(k: &Constants) -> bool
    ensures answer { IsTrue result ↔ Homogeneous k.now }
    ensures configuration { IsConfiguration k.now }
{
    has_one_fibre(k.colouring())
}

#[tactic(auto, using(crate::proofs::TestLemmas::symmetric_steps))]
fn is_symmetric(k: &Constants) -> bool
    ensures { IsTrue result ↔ Symmetric k.now }
{
    for class in 0..k.rank() {
        if k.transpose(class) != class {
            return false;
        }
    }
    true
}

#[tactic(auto, using(crate::proofs::TestLemmas::commutative_steps))]
fn is_commutative(k: &Constants) -> bool
    ensures { IsTrue result ↔ Commutative k.now }
{
    for class in 0..k.rank() {
        if !commutes_at(k, class) {
            return false;
        }
    }
    true
}

// Whether p(i, j; class) and p(j, i; class) are the same for all i and j.
fn commutes_at(k: &Constants, class: u32) -> bool
    requires { class < rank_of k.now }
    ensures { IsTrue result ↔ CommutesAt k.now class }
{
    for entry in k.entries(class) {
        if k.value(entry.right, entry.left, class) != entry.count {
            return false;
        }
    }
    true
}

fn is_thin(k: &Constants) -> bool
    ensures { IsTrue result ↔ Thin k.now }
{
    is_homogeneous(k) && has_valencies_one(k)
}

// Whether each class has valency 1: in a homogeneous configuration, whether it is thin.
fn has_valencies_one(k: &Constants) -> bool
    ensures { Homogeneous k.now → (IsTrue result ↔ Thin k.now) }
{
    for class in 0..k.rank() {
        if k.valency(class) != 1 {
            return false;
        }
    }
    true
}

fn is_primitive(alloc: Global, k: &Constants) -> Result<bool, NoMemory>
    ensures { IfOk result (λ answer. IsTrue answer ↔ Primitive k.now) }
{
    if k.rank() < 2 || !is_homogeneous(k) {
        return Ok(false);
    }
    all_span(alloc, k)
}
