//! Sizes and bits as printable bytes.

ghost use Rattle.std.specs.Prelude.{◌≡◌, ◌+◌, ◌*◌, ◌^◌, ◌<◌, ◌≤◌, ◌++◌, length, OnOk};
ghost use Rattle.pair_colours.specs.declared.coloured_pairs.TheConstants.{MOST_POINTS};
ghost use Rattle.relation_text.specs.Bits as spec;

use pair_colours::NoMemory;
use std::alloc::Global;

// Puts the bytes of a size at the end.
pub(crate) fn push_size(text: &mut Vec<u8>, size: u32) -> Result<(), NoMemory>
    requires { size ≤ MOST_POINTS }
    ensures { OnOk result (text.new.items ≡ text.old.items ++ spec.size_bytes size) }
{
    let digit = (size % 64) as u8 + 63;
    if size <= 62 {
        text.push(digit)?;
    } else {
        let high = (size / 64) as u8 + 63;
        text.extend_from_slice(&[126, 63, high, digit])?;
    }
    Ok(())
}

// Puts bits at the end, six to a byte.
pub(crate) fn push_bits(text: &mut Vec<u8>, bits: &[bool]) -> Result<(), NoMemory>
    ensures { OnOk result (text.new.items ≡ text.old.items ++ spec.bit_bytes bits.now) }
{
    for q in 0..bits.len().div_ceil(6) {
        text.push(six_bits(bits, 6 * q) + 63)?;
    }
    Ok(())
}

// Six bits from a place on, as a number.
fn six_bits(bits: &[bool], k: usize) -> u8
    requires { k < length bits.now }
    ensures six { result ≡ spec.six_bits bits.now k }
    ensures few { result < 64 }
{
    32 * bit_value(bits, k)
        + 16 * bit_value(bits, k + 1)
        + 8 * bit_value(bits, k + 2)
        + 4 * bit_value(bits, k + 3)
        + 2 * bit_value(bits, k + 4)
        + bit_value(bits, k + 5)
}

// The bit at a place as a number, and 0 past the end.
fn bit_value(bits: &[bool], k: usize) -> u8
    ensures value { result ≡ spec.bit_value bits.now k }
    ensures few { result ≤ 1 }
{
    match bits.get(k) {
        Some(true) => 1,
        _ => 0,
    }
}
