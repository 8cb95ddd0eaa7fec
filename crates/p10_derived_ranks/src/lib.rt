//! The ranks of a certificate in which two variables that approach each other bound turns have a section.
//!
//! Nothing runs here. `p10_finder` says which ranks stand for the loops of a derived certificate, and `p10_diff_evidence` which ranks a
//! section may say. The function of [`laws`] stands for what joins both: so the text of the certificate with its section is one that
//! checking reads back.
#![tactic(auto)]

pub mod laws;
