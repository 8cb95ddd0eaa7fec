//! The front of `p10`: from the gathered files of a program to its typed program.
//!
//! Directives are obeyed and macros replaced, then the words are read as declarations and functions, and these are given types
//! (C99 5.1.1.2p1, phases 3 to 7). Entry point: [`read`]. The first stage that refuses the files, or at which they exceed a limit,
//! decides:
//!
//! | Stage | Refusals | Limits | Gives |
//! |---|---|---|---|
//! | expansion (`p10_expand`) | D1 to D8 | M3, M4, M6 | the words of each root, the directives that were obeyed |
//! | the grammar (`p10_parse`) | G1 | M5 | the declarations and functions of all roots |
//! | types (`p10_elab`) | S1 to S30 | M8 | the typed program of all roots |
//!
//! The stages are done for all roots together, so a D3 of the second root comes before a G1 of the first. Invariant: there are
//! trees exactly where expansion and the grammar refuse nothing, and a program exactly where nothing is refused. [`digests`] gives the
//! digests of the words that were read, by which a certificate is known to speak of them.
#![tactic(auto)]

mod fault;
mod hashing;
pub mod laws;
mod reading;
mod typing;

pub use fault::FrontFault;
pub use hashing::digests;
pub use reading::{Reading, read};
