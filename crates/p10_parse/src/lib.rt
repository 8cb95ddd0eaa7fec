//! Declarations, statements and functions of C, over the grammar of expressions and declarators.
//!
//! Entry point: [`units`], which gives the one list of trees that spells the words of all roots, each part in its place, or
//! the fault of the first root whose words are nested over the limit M5 or that no trees spell; then it is G1, at the word at
//! which the next declaration or function would begin.
//!
//! How words are read is defined in `specs/`: `external_at` reads a declaration or function (C99 6.9) by readers of its
//! parts that go a number of levels deep, and eight levels a word are enough. The code computes these readers, one function
//! for each. The contracts of [`laws`] say what the grammar promises: a declaration or function has one tree, none
//! spells a proper prefix of what another spells, a root has one list of trees at most, and reading one after the other
//! finds the longest prefix of the words that some declarations and functions spell.
//!
//! Whether trees keep to the rules of C on types and scopes is for the crates above. What spells and what may be spelled is
//! defined in `p10_syn`; places are set by `p10_place`.
#![tactic(auto)]

mod declaration;
mod external;
mod initializer;
pub mod laws;
mod parameters;
mod part;
mod program;
mod root;
mod statement;
mod stopping;
mod way;

pub use program::units;
pub use way::Way;
