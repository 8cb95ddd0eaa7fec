//! How expressions, types, specifiers and declarators of C are read (C99 6.5, 6.7).
//!
//! The definitions in `specs/` are readers that go a number of levels deep and choose by at most two words and the typedef
//! names in scope; what the next word is to them are the tables [`Next`], [`Start`] and [`Specifying`]. In `proofs/` stand two laws of
//! all of them: what is read is spelled (`Takes`), and what is spelled is read, whatever words follow (`Again`). From these an
//! expression's tree is unique, which [`laws`] states. The code computes these readers, one function for each, over a [`Cursor`]
//! of the words that are left and the [`Scope`] of declared names.
#![tactic(auto)]

mod cursor;
pub mod declarator;
mod entire;
pub mod expression;
mod fault;
pub mod laws;
mod names;
mod next;
mod operand;
mod scope;
pub mod specifier;
mod stopping;
mod tokens;
mod trouble;

pub use cursor::Cursor;
pub use entire::{budget_of, expr};
pub use fault::ParseFault;
pub use names::Names;
pub use next::{Next, Specifying, Start, begins_specifiers};
pub use scope::Scope;
pub use tokens::tokens_of;
pub use trouble::Trouble;
