//! Holzmann's rules 6 and 7 on typed programs: objects with the smallest possible scope, results that are used, and
//! parameters that are checked.
//!
//! Entry point: [`use_rules`], the violations of a program. Every naming of an object in a tree is a use of it; all of them
//! are listed in text order, and what lies in a function or a block is a stretch of that list. So an object is used in one
//! function, or one block, alone where its first and its last use lie in that stretch. The time is proportional to the program,
//! except for a logarithm.
//! No object and no function comes from a built-in header: those define types and macros alone.
#![tactic(auto)]

mod functions;
pub mod laws;
mod listing;
mod occurrences;
mod parts;
mod rules;
mod spreads;
mod walking;
mod wide;

pub use rules::use_rules;
