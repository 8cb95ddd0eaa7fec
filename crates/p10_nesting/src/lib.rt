//! The nesting of a list of words, which limit M5 bounds: this project's own measure of how deep the
//! trees of the words can be, taken before they are parsed.
//!
//! Each bracket opens a level with a row of words, and the nesting at a word is how many words stand in
//! the rows of all open levels. So `int main(void) { return ((0)); }` has the nesting 8, at its `0`.
//! Entry points: [`is_too_nested`], and [`is_too_high`] for the native stack; each one pass in time linear in the words, with
//! room for the limit's rows.
//! Invariant: rows are kept in numbers that agree with the rows of the definition.
//! Whether the brackets match, and whether the words are C at all, is left to the parser.
#![tactic(auto)]

mod height;
pub mod laws;
mod nested;
mod open;
mod role;
mod tally;

pub use height::is_too_high;
pub use nested::is_too_nested;
