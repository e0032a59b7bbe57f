//! The lattice of the fusions of a coherent configuration: which fusion covers which, and what two
//! fusions have in common.
//!
//! * `covering`: `covers`, all pairs of fusions of which one is finer, with none between.
//! * `meeting`: `common`, the coarsest fusion that is finer than two.
//! * `cover_list`: `Cover` and `CoverList`, what `covers` answers.
//! * `comparing`: whether a string is finer than another.
//! * `strings`: the strings that a visitor met.
//! * `place_sets`: sets of places as bits.
//! * `laws`: what holds of the definitions alone.
//!
//! The definitions stand in `specs/`; fusions are colour_wl's, and they are told by a visitor that met
//! all of them in their order.
#![tactic(auto)]

mod comparing;
mod cover_list;
mod covering;
pub mod laws;
mod meeting;
mod place_sets;
mod strings;

pub use cover_list::{Cover, CoverList};
pub use covering::{MOST_FUSIONS, covers};
pub use meeting::common;
