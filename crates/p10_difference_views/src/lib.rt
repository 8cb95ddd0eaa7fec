//! What the evidence of differences asks of a function: its view, in which it has no places and no numbers of objects, literals and
//! structures.
//!
//! Nothing runs here; the functions of [`laws`] stand for the laws. By them a rank of two variables that approach each other stands for a
//! loop of a function that an edit left as it was exactly where it stood before (`specs/Laws.antt`).
#![tactic(auto)]

pub mod laws;
