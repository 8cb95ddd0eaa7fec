//! The typed language of `p10`: what C's expressions, statements and declarations come to once names, types and
//! conversions are known. Everything above speaks of these trees.
//!
//! Entry points: [`Program`] with its [`Func`]s, [`Global`]s and [`Types`]; [`Stmt`], [`Value`] and [`Place`], its trees,
//! of which each node keeps where it stands and its type; [`Nodes`], the walk over their nodes; [`size`], the size of a type.
//! Contracts see trees as plain ones, without boxes (`specs/Typed.antt`, `specs/Views.antt`: `plain_program`).
//! Invariant: a program is *whole* (`specs/WholePrograms.antt`: `IsWholeProgram`): its types agree as the rows of the
//! operators say (`specs/Rows.antt`), its numbers name what is there and in scope, and its sizes are those of its types.
//! Whoever makes a program proves that, and whoever takes one may rely on it.
//! How C's trees come to typed ones, and what typed ones mean, are left to the crates above.
#![tactic(auto)]

mod c_type;
mod constants;
pub mod laws;
mod lay;
mod laying;
mod make;
mod make_initializers;
mod make_statements;
mod members;
mod nodes;
mod program;
mod pushing;
mod representing;
mod sizes;
mod statements;
mod structures;
mod table;
mod typed;
mod uses;

pub use c_type::{CType, TypeForm};
pub use constants::{first_of_parts, fold, inconstant_part, integer_of, is_null};
pub use make_initializers::Heading;
pub use make_statements::Clauses;
pub use nodes::{Node, Nodes};
pub use program::{Extent, Func, Global, Literal, Program, Seen, Variable};
pub use sizes::size;
pub use statements::{
    Initializer, Item, Label, Labels, LoopHead, LoopKeyword, MarkKind, Stmt, StmtForm, UpdateKind,
    Written,
};
pub use structures::{Body, Member, Structure};
pub use table::Types;
pub use typed::{Library, LogicOp, Place, PlaceForm, Value, ValueForm};
pub use uses::{FunctionUse, ObjectUse, manages_memory};
