//! Texts that are too long for a table.

use std::alloc::{AllocError, Global};

/// The front, then the piece so many times, and then the end.
pub(crate) fn repeated(
    alloc: Global,
    front: &[u8],
    piece: &[u8],
    times: u32,
    end: &[u8],
) -> Result<Vec<u8>, AllocError> {
    let mut text = Vec::from_slice(alloc, front)?;
    for _ in 0..times {
        text.extend_from_slice(piece)?;
    }
    text.extend_from_slice(end)?;
    Ok(text)
}

/// The front, and then the byte `?` up to so many bytes in all.
pub(crate) fn padded(alloc: Global, front: &[u8], size: usize) -> Result<Vec<u8>, AllocError> {
    let mut text = Vec::from_slice(alloc, front)?;
    text.resize(size, b'?')?;
    Ok(text)
}

/// The text, with a return before each line end.
pub(crate) fn with_returns(alloc: Global, text: &[u8]) -> Result<Vec<u8>, AllocError> {
    let mut returned = Vec::new(alloc);
    for byte in text {
        if *byte == b'\n' {
            returned.push(b'\r')?;
        }
        returned.push(*byte)?;
    }
    Ok(returned)
}

/// The text, with this in place of the line of this number, counted from 1, and of its line end.
pub(crate) fn with_line(
    alloc: Global,
    text: &[u8],
    number: u32,
    line: &[u8],
) -> Result<Vec<u8>, AllocError> {
    let mut changed = Vec::new(alloc);
    let mut at = 1u32;
    for byte in text {
        if at != number {
            changed.push(*byte)?;
        } else if *byte == b'\n' {
            changed.extend_from_slice(line)?;
        }
        if *byte == b'\n' {
            at = at.saturating_add(1);
        }
    }
    Ok(changed)
}

/// The matrix of a directed cycle: colour 1 leads from each point to the next.
pub(crate) fn directed_cycle(
    alloc: Global,
    head: &[u8],
    points: u32,
) -> Result<Vec<u8>, AllocError> {
    let mut text = Vec::from_slice(alloc, head)?;
    for x in 0..points {
        for y in 0..points {
            if y > 0 {
                text.push(b' ')?;
            }
            let next = if x == points - 1 { 0 } else { x + 1 };
            let colour = if x == y {
                b'0'
            } else if y == next {
                b'1'
            } else {
                b'2'
            };
            text.push(colour)?;
        }
        text.push(b'\n')?;
    }
    Ok(text)
}

// The text gets the number and a blank.
fn put_number(alloc: Global, text: &mut Vec<u8>, number: u32) -> Result<(), AllocError> {
    let word = format!(in alloc; "{number} ")?;
    text.extend_from_slice(word.as_bytes())
}

// The text gets the products of x in the cyclic group of that order, from 0 on: each is one more
// than the one before it, up to the order.
fn put_products(alloc: Global, text: &mut Vec<u8>, x: u32, order: u32) -> Result<(), AllocError> {
    let mut product = x;
    for _ in 0..order {
        put_number(alloc, text, product)?;
        product = product.wrapping_add(1);
        if product >= order {
            product = 0;
        }
    }
    text.push(b'\n')?;
    Ok(())
}

/// The table of products of the cyclic group of that order.
pub(crate) fn cyclic_table(alloc: Global, head: &[u8], order: u32) -> Result<Vec<u8>, AllocError> {
    let mut text = Vec::from_slice(alloc, head)?;
    for x in 0..order {
        put_products(alloc, &mut text, x, order)?;
    }
    Ok(text)
}

// How far it is upwards from one of seven places in a circle to another.
fn upwards(from: u32, to: u32) -> u32 {
    if to >= from {
        to - from
    } else {
        7u32.saturating_sub(from - to)
    }
}

// The colour of two points of the plane over seven elements that lie so far apart: 1 and the slope
// of their line, where it has one.
fn plane_colour(across: u32, up: u32) -> u8 {
    if across == 0 && up == 0 {
        return b'0';
    }
    let mut rise = 0;
    for colour in b"1234567" {
        if rise == up {
            return *colour;
        }
        rise = rise.wrapping_add(across) % 7;
    }
    b'8'
}

// The text gets the colours of a point of the row b with the seven points so far across.
fn put_column(text: &mut Vec<u8>, across: u32, b: u32) -> Result<(), AllocError> {
    for d in 0..7 {
        text.push(plane_colour(across, upwards(b, d)))?;
        text.push(b' ')?;
    }
    Ok(())
}

// The text gets the colours of the point (a, b) with all points.
fn put_point(text: &mut Vec<u8>, a: u32, b: u32) -> Result<(), AllocError> {
    for c in 0..7 {
        put_column(text, upwards(a, c), b)?;
    }
    text.push(b'\n')?;
    Ok(())
}

/// The matrix of the plane over seven elements, with the points (a, b) by a and then b: two points of one
/// column have the colour 8, and any other two the colour 1 + s, where s is the slope of their line.
pub(crate) fn plane_of_7(alloc: Global) -> Result<Vec<u8>, AllocError> {
    let mut text = Vec::from_slice(alloc, b"matrix 49\n")?;
    for a in 0..7 {
        for b in 0..7 {
            put_point(&mut text, a, b)?;
        }
    }
    Ok(text)
}

// How many points of the cycle with 2 d + 1 points are at distance i from the point 0 and at
// distance j from the point k: the points i and -i are at distance i.
fn common_points(d: u32, i: u32, j: u32, k: u32) -> u32 {
    let near = i.abs_diff(k);
    let round = i.wrapping_add(k);
    let far = round.min(d.wrapping_mul(2).wrapping_add(1).wrapping_sub(round));
    match (near == j, i > 0 && far == j) {
        (true, true) => 2,
        (false, false) => 0,
        _ => 1,
    }
}

// The text gets the numbers of these distances i and k, where they are not 0.
fn put_distances(
    alloc: Global,
    text: &mut Vec<u8>,
    d: u32,
    i: u32,
    k: u32,
) -> Result<(), AllocError> {
    for j in 0..=d {
        let count = common_points(d, i, j, k);
        if count > 0 {
            let line = format!(in alloc; "{i} {j} {k} {count}\n")?;
            text.extend_from_slice(line.as_bytes())?;
        }
    }
    Ok(())
}

/// The first line, and then the parameters of the cycle with 2 d + 1 points.
pub(crate) fn cycle_parameters(alloc: Global, front: &[u8], d: u32) -> Result<Vec<u8>, AllocError> {
    let mut text = Vec::from_slice(alloc, front)?;
    for k in 0..=d {
        for i in 0..=d {
            put_distances(alloc, &mut text, d, i, k)?;
        }
    }
    Ok(text)
}
