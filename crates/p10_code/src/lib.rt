//! The code of a program: flat operations, what each does, and the law that they do what the program means.
//!
//! The definitions in `specs/` are the entry point. `Operations` has the operations, each with the steps that are paid before it
//! acts; `Machine` where the machine stands and what one operation does, in terms of `p10_meaning`'s own functions on states and
//! objects; `ValueCode`, `StatementCode`, `ProgramCode` and `TaskCode` the code of trees, as functions that build lists with
//! absolute places. Steps of nodes that were entered are a *debt* that the next operation pays, so `StepsSpent` falls exactly where
//! it does in the meaning. Every read of a variable has an operation that tests it, every block that opens objects one that begins
//! and one that closes it: what can be done faster together is left to the loop above.
//! Invariant: a frame has its variables in its first slots, then as many free slots as its trees need (`need`, `height`).
//! The module [`laws`] states that the code is exact, whatever the program and the budget; the proof takes a tree's code to be right
//! *whatever follows* (`proofs/ValueParts.antt`, `proofs/StatementParts.antt`), a lemma for each form.
//! How code lies in memory, and the loop that runs it, are left to the crates above.
#![tactic(auto)]

pub mod laws;
