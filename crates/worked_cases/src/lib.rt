//! Worked cases of the libraries, over their public calls: a crate of tests alone, so that no library
//! is proved a second time for its tests.
//!
//! Each case is a row of a table that one test goes through. What is expected comes from the
//! literature, from the formats or from work by hand, and never from what the program wrote.
//!
//! * `fixtures`, `configurations`: what the tables share.
//! * `lines`, `number_lines`, `relations`, `scripts`, `traces`: texts that are read, refused, written.
//! * `host`, `inputs`: the machine's files, and the files of a run.
//! * `triangles`, `closures`: triangle numbers, steps, rounds and closures.
//! * `fusions`: fusions and good sets of colours; `made_schemes`: products, quotients, subschemes.
//! * `histories`, `product_edits`: histories of edits.
//! * `answers`, `demonstrations`: the texts of answers, and the relations of the demonstration.
#![tactic(auto)]

#[cfg(test)]
mod answers;
#[cfg(test)]
mod closures;
#[cfg(test)]
mod configurations;
#[cfg(test)]
mod demonstrations;
#[cfg(test)]
mod fixtures;
#[cfg(test)]
mod fusions;
#[cfg(test)]
mod histories;
#[cfg(test)]
mod host;
#[cfg(test)]
mod inputs;
#[cfg(test)]
mod lines;
#[cfg(test)]
mod made_schemes;
#[cfg(test)]
mod number_lines;
#[cfg(test)]
mod product_edits;
#[cfg(test)]
mod relations;
#[cfg(test)]
mod scripts;
#[cfg(test)]
mod traces;
#[cfg(test)]
mod triangles;
