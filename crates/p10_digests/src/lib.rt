//! The digests of a program's words, by which claims on it are known to speak of these words.
//!
//! Entry point: [`digests`], of the words of all roots and the trees that they spell. A function's digest is the SHA-256 of its words,
//! each followed by LF; the outside digest is that of all other words, in which each body stands as one line `@`, and before each root
//! the line `@@`. So a change in a body changes the digest of its function alone.
//!
//! Invariant: words are numbered through all roots, as trees number them.
#![tactic(auto)]

mod functions;
pub mod laws;
mod outside;
mod whole;
mod words;

pub use whole::digests;
