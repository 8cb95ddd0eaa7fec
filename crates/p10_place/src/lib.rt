//! Sets the places of trees: which words each part spells, and their bytes.
//!
//! Entry points: [`place_expr`], [`place_unit`] and [`place_units`]. Readers make trees that stand nowhere; these go over a
//! tree once, from its first word on, and set the place of each part from the words of its [`Root`]. They take no memory, and
//! time linear in the tree.
//!
//! Invariant: a part's place is that of the words that it spells, counted by its form alone, and the tree is the same but
//! for its places. [`laws`] say that each part so stands on the words that it spells. Reading words into trees is left to
//! the parsers.
#![tactic(auto)]

mod declaration;
mod declarator;
mod expression;
mod external;
mod form;
pub mod laws;
mod place;
mod put;
mod root;
mod specifier;
mod statement;

pub use place::{place_expr, place_unit, place_units};
pub use root::Root;
