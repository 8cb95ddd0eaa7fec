//! What evidence asks of a function: its view, in which it has no places and no numbers of objects, literals and structures.
//!
//! Nothing runs here; the functions of [`laws`] stand for the laws. By them a function that an edit left as it was has loops for which
//! the evidence of ranges stands as before (`specs/Laws.antt`).
#![tactic(auto)]

pub mod laws;
