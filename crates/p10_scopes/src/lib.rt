//! A pass knows exactly what is in scope: where a function stands at a statement, each of its integer frame variables in scope has a
//! range that is known, and no other variable has one.
//!
//! Nothing runs here. `p10_pass` says what is known after statements; the functions of [`laws`] stand for what holds of it. So after
//! `{ int n = 0; }` nothing is known of `n`, and within the block something is known of it at each place after its declaration,
//! after each hull of two ways too.
//! That no more is known is part of what makes claims sound (`p10_execution`); that no less is, makes each line of a certificate count.
#![tactic(auto)]

pub mod laws;
