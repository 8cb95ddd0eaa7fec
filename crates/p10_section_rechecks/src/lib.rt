//! What the verdict after an edit is worth with the evidence that each certificate's own sections give: it is that on the whole certificate.
//!
//! Nothing runs here; the functions of [`laws`] stand for the laws. Their premise on views is that of `p10_rechecks`.
#![tactic(auto)]

pub mod laws;
