//! The words of a program: its source files gathered, their directives obeyed and their macros replaced.
//!
//! Entry points: [`gather`], which reads the roots and every file that their include lines can reach, cuts
//! each into words, which it keeps, and links its include lines to the files for which they stand (C99 6.10.2); and
//! [`expand`], which gives the words of each root after its directives are obeyed and its macros replaced
//! (C99 5.1.1.2, phase 4), and the directives that were obeyed. Invariants: every gathered file is a held
//! file with its bytes or a built-in header with its text; every word of an expansion is a run of bytes of a
//! gathered file. What the words mean is left to others.
#![tactic(auto)]

mod absent;
mod candidates;
mod expanded;
mod expansion;
mod fault;
mod gathering;
mod headers;
mod includes;
mod laws;
mod load;
mod place;
mod reading;
mod walk;

pub use expanded::{Expanded, Obeyed};
pub use expansion::{ExpandFault, expand, expands_to_once, words_before_give};
pub use fault::GatherFault;
pub use laws::{ends_once, files_are_known, headers_have_their_texts, roots_are_named};
pub use walk::gather;
