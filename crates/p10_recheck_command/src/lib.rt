//! The command `recheck` of `p10`: whether a certificate bounds every run of a program, which was verified before an edit.
//!
//!     recheck --since old.p10 --cert new.p10 a.c
//!                                    accepted: prefix 18 turn 0 calls 3 bytes 8
//!                                    passed 2 of 4
//!
//! Entry point: [`recheck`]. Both certificates are of version 2: the old one was accepted before the edit, and the new one is judged. Only
//! those functions are passed that the edit can have touched, and their callers; the second line tells how many. The verdict is that of
//! `verify` on the new certificate, where the old one was accepted. Invariant: the status and both texts are those of a right answer, and
//! where the files are told at most one is right, unless a read fails or memory runs out. Which words are this command is left to the
//! crate above.
#![tactic(auto)]

mod answer;
mod command;
mod decide;
mod judging;
pub mod laws;
mod rechecking;
mod tell;

pub use answer::Answer;
pub use command::{RecheckCommand, recheck};
pub use rechecking::Rechecking;
