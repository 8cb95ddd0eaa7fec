//! Typed trees of two programs that are the same but for their places and for the numbers of objects, literals and structures, as a relation
//! by cases; and that functions of such trees have one view.
//!
//! Nothing runs here; the functions of [`laws`] stand for the laws. Numbers of objects and literals are free. Those of structures are paired
//! by a relation that is given beforehand: in words that are the same they stand for the same structures (`specs/Renaming.antt`).
#![tactic(auto)]

pub mod laws;
