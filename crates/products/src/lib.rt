//! Direct and wreath products of coherent configurations (Bailey, Association Schemes, 2004,
//! chapter 3). With m the points of the second factor, the point (x, u) of a product is x * m + u.
//!
//! * `multiplying`: `direct` and `wreath`, and why there is no product.
//! * `labelling`: the labels of the pairs of a product, in two parts.
//! * `laws`: products are coherent; there is one of each kind.
//!
//! The definitions stand in `specs/`.
#![tactic(auto)]

mod labelling;
pub mod laws;
mod multiplying;

pub use multiplying::{ProductFault, direct, wreath};
