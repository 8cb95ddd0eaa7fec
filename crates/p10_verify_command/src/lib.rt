//! The command `verify` of `p10`: whether a certificate bounds every run of a program.
//!
//!     verify --cert a.p10 a.c        accepted: prefix 3 turn 0 calls 1 bytes 0
//!                                    refused: K11 a.c:1:5
//!     verify --clean --cert b.p10 b.c
//!                                    accepted clean: prefix 141 turn 0 calls 1 bytes 5
//!                                    refused: C1 b.c:5:9
//!
//! Entry point: [`verify`]. The sources are gathered, the certificate is loaded, the sources are read as a program, and the
//! certificate is judged for it; the first of these that gives no program, no certificate or no bounds is what is reported. With
//! `--clean`, the claims of an accepted certificate are tried for that, too. Invariant: the status and both texts are
//! those of a right answer, and where the files are told at most one is right, unless a read fails or memory runs out. Which words
//! are this command is left to the crate above.
#![tactic(auto)]

mod answer;
mod command;
mod decide;
pub mod laws;
mod tell;

pub use answer::Answer;
pub use command::{VerifyCommand, verify};
