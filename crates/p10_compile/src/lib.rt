//! The compiler of a program to the operations of the machine.
//!
//! Entry points: [`compile`], the code of a program and the table of its functions, [`compile_task`], the same of a program with a
//! task loop, and [`compile_constant`], the code of a constant expression outside functions. Operations lie in memory as [`Op`]s;
//! `specs/Views.antt` says what each is in terms of `p10_code` (`plain_op`).
//! Invariant: each function here is equal to the one of `p10_code` of the same name, whatever the tree, so the code is that of the
//! definitions, and what is proved of these holds of it. There is an error only where memory runs out, or a number that memory
//! bounds is too large for its type; nothing else is left then.
//! `return a + 1;`, where `a` has slot 0 and slot 1 is free, becomes three operations, each after the steps that it pays:
//!
//! ```text
//! 3  check 0                  the statement, the sum and the name
//! 1  compute 1: slot 0 + 1    the constant
//! 0  return slot 1
//! ```
//!
//! The greatest operand depth of each function stands in its [`Entry`]: a frame has its variables, and `room` slots after them.
//! The loop over the code is left to the crates above.
#![tactic(auto)]

mod assigning;
mod classes;
mod code;
mod constants;
mod counts;
mod declaring;
mod exits;
mod functions;
mod heights;
mod needs;
mod operations;
mod outside;
mod place_parts;
mod programs;
mod site;
mod spots;
mod start;
mod statement_code;
mod statement_parts;
mod tasks;
mod value_code;
mod value_parts;
mod values;
mod widths;

pub use operations::{Action, Class, Computation, Entry, Op, Operand};
pub use outside::{ConstantCode, compile_constant};
pub use programs::{Code, compile};
pub use tasks::{TaskCode, TaskLoop, compile_task};
