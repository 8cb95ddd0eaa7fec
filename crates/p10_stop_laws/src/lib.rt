//! Laws of stops: each undefined operation has its cause, and no other tree stops.
//!
//! Nothing runs here; the functions of [`laws`] stand for the laws. Where an operator on integers is undefined is said in the words of
//! C99 (`specs/Operators.antt`), and so are the moves, reads, writes and comparisons of pointers, and `free` (`specs/Moves.antt`). In whole
//! programs and sound states each stop of a run stands at a tree of the kind that the table of stops names for it (`specs/Causes.antt`).
//! What the crates above need of the meaning they take from `p10_meaning`; nothing stands on these laws.
#![tactic(auto)]

pub mod laws;
