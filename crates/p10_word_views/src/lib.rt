//! What joins the words of files to the verdict after an edit: that functions have one view in the same words is stated here, and taken from
//! there on.
//!
//! Nothing runs here; the functions of [`laws`] stand for the laws. `HaveEqualViews` is a premise of both: of which files it holds is left to
//! the crates above.
#![tactic(auto)]

pub mod laws;
