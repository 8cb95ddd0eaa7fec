//! The machine that runs a typed program, with a work stack of its own: no call of the program takes native stack.
//!
//! Entry points: [`start`], the state before `main` is entered, and [`Machine`], which begins there. [`Machine::run_main`] runs
//! `main` up to its task loop or to its end, and [`Machine::turn`] one turn of the loop after the other; each answers an
//! [`Ended`]. Contracts see a machine between its calls as a state of the meaning (`specs/Resting.antt`), and what a call comes
//! to as a part of a whole run (`specs/Stages.antt`), whatever the source has left. The law [`laws::runs_come_in_stages`] joins
//! the parts.
//! Inside, contracts see the work that is left as a list of tasks (`specs/private/Tasks.antt`), what it comes to in terms of the
//! meaning (`specs/private/Resuming.antt`), and one act as a function on plain lists (`specs/private/Acts.antt`). Each act leaves
//! what the tasks come to as it was (`proofs/Right.antt`), and takes a step or leaves less to be done (`proofs/Lighter.antt`).
//! The acts never see a source or a sink: they pause where one is needed, and `Engine` sees to it.
//! Invariant: none that callers have to keep; a machine at its task loop has one open call, that of `main`.
#![tactic(auto)]

mod accesses;
mod acting;
mod allocating;
mod arguments;
mod assignments;
mod base;
mod broken;
mod calls;
mod calls_at_once;
mod cells_at_once;
mod choosing;
mod constants;
mod copying;
mod declaring;
mod doing_at_once;
mod ended;
mod engine;
mod entering;
mod filling;
mod hastening;
mod held;
mod holding;
mod kinds;
pub mod laws;
mod leaving;
mod library;
mod listed;
mod machine;
mod main_function;
mod members;
mod numbers_at_once;
mod opening;
mod operate;
mod operations;
mod operators;
mod outside;
mod parts;
mod passing;
mod place;
mod places;
mod places_at_once;
mod pointing;
mod queue;
mod reserving;
mod returning;
mod room;
mod running;
mod scalars;
mod seek;
mod settling;
mod stacks;
mod standing;
mod statements;
mod statements_at_once;
mod states;
mod steps;
mod stopped;
mod surroundings;
mod tasks;
mod trading;
mod turn;
mod turning;
mod turns;
mod turns_at_once;
mod values;
mod values_at_once;
mod widths;
mod work;

pub use ended::{Ended, RunFault};
pub use machine::Machine;
pub use states::{State, start};
