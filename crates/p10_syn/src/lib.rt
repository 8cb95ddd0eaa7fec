//! The trees of C's grammar, and the words that they spell (C99 6.5 to 6.9).
//!
//! Definitions speak of plain trees (`specs/Trees.antt`), which have a place at each node: `spell` gives the words of a tree,
//! `IsExpression`, `AreExternals` and their kin say which trees there are where names are in scope, and `Spells` joins both with
//! the places. The code has [`Expr`], [`Stmt`], [`Decl`] and [`Unit`], which `specs/Built.antt` and `BuiltStatements.antt` lead to
//! plain trees. Trees are made by `p10_make`, and get their places, here [`nowhere`], by `p10_place`.
//!
//! `- x * y` is the product of `- x` and `y`: the level of an operator is [`level`], from 1 for a comma to 16 for a postfix
//! expression. Invariant: an expression keeps its pairs of parentheses as a number, so a tree spells one list of words.
//! Reading words is left to the parsers, and types and scopes beyond typedef names to the elaborator.
#![tactic(auto)]

mod place;
#[tactic(auto, unfolding(crate::specs::Built::bare_of, crate::specs::Built::bare_specifier_of, crate::specs::Built::bare_declarator_of))]
mod query;
mod setting;
mod sign;
mod sign_table;
mod statement;
mod token;
mod tree;

pub use place::{Side, nowhere};
pub use query::{binary_level, is_type_word, level, makes_types, name_of, said_after};
pub use setting::{Naming, Said, Setting};
pub use sign::Sign;
pub use sign_table::{is_same, keyword, punctuator, spelling};
pub use statement::{Decl, Function, Init, InitDeclarator, Landmarks, Stmt, Unit};
pub use token::{Token, token_of};
pub use tree::{
    Declarator, Enumeration, Enumerator, Expr, Field, Form, Identifier, Member, Parameter,
    Qualifier, Spec, Structure, TypeName,
};
