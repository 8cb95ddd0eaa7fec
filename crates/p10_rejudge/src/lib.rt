//! What the text of a certificate from before an edit comes to, with one that was read after it, for the program after it: [`rejudge`]. Its
//! answer is that of `recheck` in `p10_incr`, with how many functions were passed for it, or why the text is that of no certificate of
//! version 2.
#![tactic(auto)]

mod rejudging;

pub use rejudging::{Passed, Rejudgement, rejudge};
