//! Products, quotients and subschemes that can be worked out by hand.

use crate::configurations::{ONE_POINT, SEVENTEEN_COLOURS, TWO_FIBRES, closure_of};
use crate::fixtures::{CUBE, read, same_numbers};
use pair_colours::Colouring;
use products::{ProductFault, direct, wreath};
use quotients::{QuotientFault, quotient, subscheme};
use std::process::Abort;
use std::test::Fail;

const TWO_POINTS: &[u8] = b"matrix 2\n0 1\n1 0\n";

// Two factors, and the colours of their direct and of their wreath product, row by row.
const PRODUCTS: [(&[u8], &[u8], &[u32], &[u32]); 2] = [
    (
        TWO_POINTS,
        TWO_POINTS,
        &[0, 1, 2, 3, 1, 0, 3, 2, 2, 3, 0, 1, 3, 2, 1, 0],
        &[0, 1, 2, 1, 1, 0, 1, 2, 2, 1, 0, 1, 1, 2, 1, 0],
    ),
    (ONE_POINT, ONE_POINT, &[0], &[0]),
];

// The product has these colours.
fn is_product(
    rt: &impl Abort,
    found: Result<Colouring, ProductFault>,
    colours: &[u32],
) -> Result<(), Fail> {
    match found {
        Ok(product) => same_numbers(rt, product.colours(), colours),
        Err(_) => return Err(Fail::new("no product")),
    }
    Ok(())
}

// The closures of two colourings have these products.
fn has_products(
    rt: &(impl Abort + AllocGlobal),
    left: &Colouring,
    right: &Colouring,
    directly: &[u32],
    wreathed: &[u32],
) -> Result<(), Fail> {
    let left = closure_of(rt.alloc(), left)?;
    let right = closure_of(rt.alloc(), right)?;
    is_product(rt, direct(rt.alloc(), &left, &right), directly)?;
    is_product(rt, wreath(rt.alloc(), &left, &right), wreathed)
}

#[test]
fn products_of_points(rt: HostRuntime) -> Result<(), Fail> {
    for (left, right, directly, wreathed) in &PRODUCTS {
        let left = read(&rt, left, 1)?;
        has_products(&rt, &left, &read(&rt, right, 1)?, directly, wreathed)?;
    }
    Ok(())
}

// The group of six elements, the numbers modulo 6.
const HEXAGON: &[u8] =
    b"matrix 6\n0 1 2 3 4 5\n5 0 1 2 3 4\n4 5 0 1 2 3\n3 4 5 0 1 2\n2 3 4 5 0 1\n1 2 3 4 5 0\n";

// Configurations, sets of their colours, and the colours of the quotient, or why there is none. The
// classes of the cube by {0, 3} are its antipodal pairs, any two of which are joined by edges; of those
// of the group, the numbers modulo 3, each follows on another.
const QUOTIENTS: [(&[u8], &[u32], Result<&[u32], QuotientFault>); 8] = [
    (ONE_POINT, &[0], Ok(&[0])),
    (
        CUBE,
        &[0, 3],
        Ok(&[0, 1, 1, 1, 1, 0, 1, 1, 1, 1, 0, 1, 1, 1, 1, 0]),
    ),
    (HEXAGON, &[3, 0, 3], Ok(&[0, 1, 2, 2, 0, 1, 1, 2, 0])),
    (CUBE, &[0, 1], Err(QuotientFault::NotClosed)),
    (CUBE, &[0, 4], Err(QuotientFault::NotClosed)),
    (CUBE, &[3, 3], Err(QuotientFault::NotClosed)),
    (TWO_FIBRES, &[0, 1], Err(QuotientFault::NotHomogeneous)),
    (
        SEVENTEEN_COLOURS,
        &[0, 1],
        Err(QuotientFault::NotHomogeneous),
    ),
];

// Configurations, sets, a point, and the colours of the subscheme on its class, or why there is none.
// In the cube the even distances from 1 lead to 1, 2, 4 and 7.
const SUBSCHEMES: [(&[u8], &[u32], u32, Result<&[u32], QuotientFault>); 6] = [
    (ONE_POINT, &[0], 0, Ok(&[0])),
    (ONE_POINT, &[0], 1, Err(QuotientFault::PointRange)),
    (
        CUBE,
        &[2, 0, 2],
        1,
        Ok(&[0, 1, 1, 1, 1, 0, 1, 1, 1, 1, 0, 1, 1, 1, 1, 0]),
    ),
    (HEXAGON, &[0, 2, 4], 1, Ok(&[0, 1, 2, 2, 0, 1, 1, 2, 0])),
    (CUBE, &[0, 1], 0, Err(QuotientFault::NotClosed)),
    (TWO_FIBRES, &[0, 1], 0, Err(QuotientFault::NotHomogeneous)),
];

// The answer is the wanted one.
fn answers(
    rt: &impl Abort,
    found: Result<Colouring, QuotientFault>,
    wanted: &Result<&[u32], QuotientFault>,
) {
    match &found {
        Ok(part) => assert_eq!(rt; Ok(part.colours()), *wanted),
        Err(fault) => assert_eq!(rt; Err(*fault), *wanted),
    }
}

#[test]
fn quotients_by_sets(rt: HostRuntime) -> Result<(), Fail> {
    for (matrix, set, wanted) in &QUOTIENTS {
        let closure = closure_of(rt.alloc(), &read(&rt, matrix, 1)?)?;
        answers(&rt, quotient(rt.alloc(), &closure, set), wanted);
    }
    Ok(())
}

#[test]
fn subschemes_on_classes(rt: HostRuntime) -> Result<(), Fail> {
    for (matrix, set, x, wanted) in &SUBSCHEMES {
        let closure = closure_of(rt.alloc(), &read(&rt, matrix, 1)?)?;
        answers(&rt, subscheme(rt.alloc(), &closure, set, *x), wanted);
    }
    Ok(())
}
