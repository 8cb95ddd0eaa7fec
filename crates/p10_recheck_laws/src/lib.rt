//! What `recheck` tells after an edit is what `verify` tells.
//!
//! Nothing runs here; the function of [`laws`] stands for the law. It asks that the certificate from before the edit was accepted for the sources
//! from before it, and that digests tell the words of both.
#![tactic(auto)]

pub mod laws;
