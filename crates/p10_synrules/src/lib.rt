//! Holzmann's rules on trees: jumps, the length of functions, assertions, pointers (rules 1, 4, 5 and 9 of
//! "The Power of Ten", as far as the tree of a program shows).
//!
//! Entry point: [`syn_rules`], the violations by the declarations and functions of all roots. One walk puts
//! down the parts of the trees, in the order of the text; each row is then read off single parts or
//! functions. The time is proportional to the trees, apart from sorting, and from walking once more over what an assertion
//! states.
//! Where a name leads, types and what is reached are left to the rules on programs.
#![tactic(auto)]

mod assertion;
mod declaration;
mod declarator;
mod expression;
mod function;
mod header;
mod laws;
mod listing;
mod part;
mod pointer;
mod rows;
mod rules;
mod specifier;
mod statement;
mod unit;

pub use laws::{assertions_are_right, counts_are_right, parts_are_right, pointers_are_right};
pub use rules::syn_rules;
