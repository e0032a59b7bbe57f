//! What meets the entries of a long list one by one: the caller makes a visitor and hands it in.
//!
//! * `visitor`: `Visitor`, the trait, with what a visitor answers, and the most colours of a set.
//! * `keep`: `Keep`, which stores the entries as they are.
//! * `packed`: `Packed`, which stores of each entry what differs from the entry before it.
//! * `refusing`: `Refusing`, which refuses what comes after so many entries.
//! * `pieces`: how `Packed` stores an entry.
//! * `masks`: sets of colours as masks.
//! * `delivering`: `deliver_sets`, which hands a list of sets to a visitor.
//! * `faults`: `RankFault`, why a list is not delivered.
//! * `laws`: what holds of the definitions alone.
//!
//! The definitions stand in `specs/`: entries, and lists that are delivered whole or in part.
#![tactic(auto)]

mod delivering;
mod faults;
mod keep;
pub mod laws;
mod masks;
mod packed;
mod pieces;
mod refusing;
mod visitor;

pub use delivering::deliver_sets;
pub use faults::RankFault;
pub use keep::Keep;
pub use masks::{has_colour, with_colour};
pub use packed::Packed;
pub use refusing::Refusing;
pub use visitor::{MOST_SET_RANK, Next, Visitor};
