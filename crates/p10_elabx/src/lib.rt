//! Typed expressions from untyped ones: names by their scopes, types, and the conversions that aren't written; or the first
//! row of the subset that an expression breaks.
//!
//! Entry points: [`value`], the typed value of an expression in a scope, or the first row that it breaks; [`Scope`], what names
//! stand for in the open blocks; and the walk's parts, [`judge`] for an operand, [`judge_target`] for what is assigned to,
//! [`judge_type`] for the name of a type, with a function for each operator on parts that are found already.
//! In the scope of `int *p; int f(void);` the expression `p * (f() + f())` is refused with S9 at `f() + f()`, and not with S2 at the
//! product, since a part of the product is refused.
//! Contracts speak of plain trees: what is found in an expression is one definition, `judge` of `specs/Judging.antt`, which
//! reads as C99 6.5 does, a line for each form; the rows that hold in it are ordered by `specs/First.antt`.
//! Invariant: a name is found by a table, however many there are, and each block forgets what it declared.
//! Each part of an expression is judged once, so the work is linear in the tree. Declarations and statements are left to what is
//! built above.
#![tactic(auto)]

mod allocations;
mod arrays;
mod assignment;
mod block;
mod bytes;
mod callee;
mod calls;
mod casts;
mod declarators;
mod elaborate;
mod evaluated;
mod forms;
mod judged;
pub mod laws;
mod literals;
mod memory;
mod named;
mod names;
mod operand;
mod operators;
mod parameters;
mod parts;
mod places;
mod problem;
mod rows;
mod scope;
mod shape;
mod signs;
mod situation;
mod sizes;
mod targets;
mod trees;
mod type_names;
mod values;
mod walk;
mod words;

pub use arrays::{length_found, sized_array};
pub use assignment::assigned;
pub use block::Block;
pub use callee::{Callee, Wants};
pub use calls::{call_judged, callee_of, wanted_of};
pub use declarators::{declarator_place, has_const_word, is_of_open_array, made_by, other_word};
pub use elaborate::{ElabFault, value};
pub use evaluated::{judge, judge_arguments, judge_target, judge_value};
pub use judged::{Judged, Listed, joined};
pub use literals::strings_value;
pub use named::Named;
pub use names::library_named;
pub use operand::{Operand, PlaceKind};
pub use operators::fitted;
pub use problem::Problem;
pub use scope::Scope;
pub use shape::{Length, Made, Shape};
pub use signs::{assignment_of, step_of};
pub use sizes::known_size;
pub use targets::{by_sign, step_judged};
pub use type_names::{specified_type, specifiers_at, specifiers_judged, typedef_rule};
pub use values::{any_value, as_value, converted};
pub use walk::{judge_declarator, judge_parameters, judge_type};
pub use words::{Said, is_bad_mixture, said_of};
