//! Linkage: which declarations of a name are of one function or object, and whether they agree (C99 6.2.2, 6.2.7).
//!
//! Entry points: [`LinkedNames`], all declarations with linkage, found by name; [`differs`], whether two declarations of one root agree;
//! [`taken_together`], which compares those of all roots and makes structures one that have to be.
//! Invariant: structures of several roots that become one stay laid out as they are.
//! Definitions: `specs/Linkage.antt` within a root, `specs/Between.antt` and `specs/Uniting.antt` between roots.
#![tactic(auto)]

mod agreeing;
mod alike;
mod between;
mod compatible;
mod groups;
mod known;
pub mod laws;
mod linkage;
mod linked;
mod linked_names;
mod listing;
mod meeting;
mod reaches;
mod stands;
mod together;
mod uniting;

pub use linkage::{differs, internal_by, is_function, is_main, is_main_name, main_problem};
pub use linked::{LinkedKind, LinkedName, PartKind};
pub use linked_names::LinkedNames;
pub use together::taken_together;
