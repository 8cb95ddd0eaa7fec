//! What the verdict after an edit is worth: it is that on the whole certificate, where the certificate from before the edit was accepted.
//!
//! Nothing runs here; the functions of [`laws`] stand for the laws. They take as a premise that a function keeps its view whose words,
//! and all words outside of bodies, are those that they were (`specs/Laws.antt`).
#![tactic(auto)]

pub mod laws;
