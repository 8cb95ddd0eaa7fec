//! Holzmann's rules on directives: rule 8, which restricts the preprocessor, and the row of rule 9 on
//! dereferences that macros hide.
//!
//! Entry point: [`pp_rules`], the violations by the obeyed directives of an expanded program. Rows on
//! single directives and lists of macros are read off one by one; whether a macro's list leads back to
//! the macro is found by the strongly connected components of the graph of macros and the names in their
//! lists. The time is proportional to the words of the directives, except for sorting.
//! Which directives are obeyed, and which begin include guards, is left to the crate below.
#![tactic(auto)]

mod bracket;
mod definitions;
mod dereference;
mod group;
mod line;
mod listing;
mod recursion;
mod rows;
mod rules;
mod unit;

pub use rules::pp_rules;
