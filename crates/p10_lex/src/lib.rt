//! Cuts a source file into its words, the preprocessing tokens of C (C99 5.1.1.2, 6.4).
//!
//! Entry point: [`lex`]. A file is cut into pieces from left to right, one a turn: white space,
//! splices, comments, words, and what begins none of these. The first piece at which a row of X1 to X6
//! holds ends the work.
//!
//! Invariant: the words so far are those of the pieces so far, and no row holds at these. Words borrow
//! the source: each one's text is the slice of the file at its span. Directives and macros are left to the
//! crates above.
//!
//! What the words of constants mean, [`integer_constant`], [`character_value`] and [`string_bytes`] say; [`between`]
//! gives what a word encloses.
#![tactic(auto)]

mod bytes;
mod characters;
mod fault;
mod faults;
mod integers;
mod laws;
mod literals;
mod pieces;
mod punctuators;
mod runs;
mod splices;
mod words;

pub use characters::{between, character_value, string_bytes};
pub use fault::LexFault;
pub use integers::{Base, Integer, Suffix, integer_constant};
pub use laws::{
    answers_are_unique, each_file_has_words_or_one_refusal, refusals_have_codes, words_are_unique,
};
pub use words::lex;
