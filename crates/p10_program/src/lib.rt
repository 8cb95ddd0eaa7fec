//! The typed program of structures, objects and functions, and what is wrong with the names that it uses (C99 5.1.2.2.1, 6.9p5).
//!
//! Entry points: [`program_with`], which adds the string literals in the trees by their numbers, and the places of the pragmas of `main`;
//! [`objects_by_number`], with [`visible_by_number`] and [`extents_at`], the functions at which each is in scope; [`undefined_in`] and
//! [`main_problem_in`], the first use of what isn't defined and the first problem of `main` (rows S27 and S28 of the subset);
//! [`is_too_large`], limit M8.
//! Contracts are equations with the definitions of `specs/`, which go over the nodes of all bodies and initialisers in text order.
//! Each function takes time linear in the program, apart from sorting literals. How declarations come to functions and objects is left
//! to `p10_elab`.
#![tactic(auto)]

mod assembly;
mod earliest;
pub mod laws;
mod literals;
mod main_calls;
mod numbered;
mod pragmas;
mod problems;
mod program_nodes;
mod sizes;
mod undefined;

pub use assembly::program_with;
pub use numbered::{extents_at, objects_by_number, visible_by_number};
pub use problems::{main_problem_in, undefined_in};
pub use sizes::is_too_large;
