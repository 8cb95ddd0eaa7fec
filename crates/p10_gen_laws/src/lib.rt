//! At which stages no generated program fails.
//!
//! Nothing runs here. `p10_gen_command` says what is right to answer to `gen`, stage by stage. The functions of [`laws`] stand for what the laws of
//! derivation, of names and of bounds make of that: the certificate that is derived is never refused, and a run within it never ends for want of steps.
//! Whether its program is read, has a certificate and returns is left open.
#![tactic(auto)]

pub mod laws;
