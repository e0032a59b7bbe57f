//! Edits that multiply the present colouring by another, whose closure is taken.

ghost use Rattle.std.specs.Prelude.{◌≤◌, All};
ghost use Rattle.pair_colours.specs.declared.coloured_pairs.TheConstants.{MOST_COLOUR};

use crate::fixtures::{read, same_numbers};
use crate::histories::{CUBE_GRAPH, TWO_POINTS, bench_of, stands};
use pair_colours::{Colouring, NoMemory};
use recolour_bench::{Bench, Edit, EditFault};
use std::alloc::Global;
use std::process::Abort;
use std::test::Fail;

/// The two kinds of products.
#[derive(Clone, Copy)]
pub(crate) enum Kind {
    Direct,
    Wreath,
}

// Multiplies by the closure of another colouring.
fn multiplied(
    alloc: Global,
    bench: &mut Bench,
    kind: Kind,
    other: Colouring,
) -> Result<(), EditFault>
    requires { All (λ colour. colour ≤ MOST_COLOUR) other.colours }
{
    let factor = Bench::new(alloc, other)?;
    let other = factor.present();
    match kind {
        Kind::Direct => bench.edit(&Edit::Direct { other }),
        Kind::Wreath => bench.edit(&Edit::Wreath { other }),
    }
}

/// A product with so many points is refused as too large.
pub(crate) fn refuses_many_points(
    rt: &impl Abort,
    alloc: Global,
    bench: &mut Bench,
    kind: Kind,
    points: u32,
) -> Result<(), NoMemory> {
    assert!(rt; points >= 1 && points <= 256);
    let answer = multiplied(alloc, bench, kind, Colouring::new(alloc, points, 7)?);
    assert_eq!(rt; answer, Err(EditFault::TooManyPoints));
    Ok(())
}

const EDGE: &[u8] = b"matrix 2\n0 1\n1 0\n";

const POINT: &[u8] = b"matrix 1\n7\n";

const PATH_OF_THREE: &[u8] = b"matrix 3\n0 1 2\n1 0 1\n2 1 0\n";

const WREATH: &[u8] = b"matrix 4\n0 1 2 1\n1 0 1 2\n2 1 0 1\n1 2 1 0\n";

// Colourings, the kind of a product, and the other factor, whose closure is taken; the rank of what is
// made, the stages of its chain, and its colours. A product with one point refines the colouring before.
const PRODUCTS: [(&[u8], Kind, &[u8], u32, usize, &[u32]); 3] = [
    (
        EDGE,
        Kind::Direct,
        TWO_POINTS,
        4,
        1,
        &[0, 1, 2, 3, 1, 0, 3, 2, 2, 3, 0, 1, 3, 2, 1, 0],
    ),
    (
        EDGE,
        Kind::Wreath,
        TWO_POINTS,
        3,
        1,
        &[0, 1, 2, 1, 1, 0, 1, 2, 2, 1, 0, 1, 1, 2, 1, 0],
    ),
    (
        WREATH,
        Kind::Direct,
        POINT,
        3,
        2,
        &[0, 1, 2, 1, 1, 0, 1, 2, 2, 1, 0, 1, 1, 2, 1, 0],
    ),
];

// No stage has a step: each colouring is coherent.
fn has_no_steps(rt: &impl Abort, bench: &Bench) {
    for stage in bench.chain() {
        assert_eq!(rt; stage.steps.len(), 0);
    }
}

#[test]
fn products_of_two_points(rt: HostRuntime) -> Result<(), Fail> {
    for (matrix, kind, other, rank, stages, colours) in &PRODUCTS {
        let mut bench = bench_of(&rt, matrix)?;
        multiplied(rt.alloc(), &mut bench, *kind, read(&rt, other, 1)?)?;
        stands(&rt, &bench, *rank, *stages)?;
        same_numbers(&rt, bench.present().colours(), colours);
        has_no_steps(&rt, &bench);
    }
    Ok(())
}

// Products that are refused: a path has two fibres, so it has no wreath product on either side.
const REFUSED: [(&[u8], Kind, &[u8], EditFault); 2] = [
    (
        CUBE_GRAPH,
        Kind::Wreath,
        PATH_OF_THREE,
        EditFault::NotHomogeneous,
    ),
    (
        PATH_OF_THREE,
        Kind::Wreath,
        CUBE_GRAPH,
        EditFault::NotHomogeneous,
    ),
];

#[test]
fn products_that_are_refused(rt: HostRuntime) -> Result<(), Fail> {
    for (matrix, kind, other, fault) in &REFUSED {
        let mut bench = bench_of(&rt, matrix)?;
        let answer = multiplied(rt.alloc(), &mut bench, *kind, read(&rt, other, 1)?);
        assert_eq!(rt; answer, Err(*fault));
    }
    Ok(())
}

// A product that is too large is refused as such, though the path has two fibres.
#[test]
fn products_of_many_points(rt: HostRuntime) -> Result<(), Fail> {
    let mut bench = bench_of(&rt, PATH_OF_THREE)?;
    refuses_many_points(&rt, rt.alloc(), &mut bench, Kind::Wreath, 86)?;
    Ok(())
}

// The cube times itself has 64 points, and is too large for a further product.
#[test]
fn the_cube_times_itself(rt: HostRuntime) -> Result<(), Fail> {
    let mut bench = bench_of(&rt, CUBE_GRAPH)?;
    multiplied(
        rt.alloc(),
        &mut bench,
        Kind::Direct,
        read(&rt, CUBE_GRAPH, 1)?,
    )?;
    stands(&rt, &bench, 16, 1)?;
    assert_eq!(rt; bench.present().size(), 64);
    refuses_many_points(&rt, rt.alloc(), &mut bench, Kind::Direct, 8)?;
    Ok(())
}
