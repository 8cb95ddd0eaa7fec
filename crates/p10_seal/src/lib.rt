//! Certificates of version 2: claims, and the digests of the words that they speak of.
//!
//!     the claims of a.p10 and        p10cert 2
//!     the digests of a.c             func main rank 0 steps 3 calls 1 bytes 0 alloc 0
//!                                    digest 3f286a42be5f9e8b5f04e92fb52e39594fca283a250b992f40092282dfc7dee8
//!                                    result 0 0
//!                                    outside 0af5df4c563f5a002c32e11302487c0f96763d43172a99783c3cb2cfa2d7527d
//!                                    total prefix 3 turn 0 calls 1 bytes 0
//!                                    end
//!
//! Entry points: [`sealed_text`] gives the text of claims with digests, and [`tell_sealed`] writes it, or that it is longer than limit
//! M10 allows. Invariant: there is one digest for each function that claims are on, and nothing in sections. Which claims they are,
//! and whether they are true, is left to the crates above.
#![tactic(auto)]

pub mod laws;
mod sealing;
mod telling;

pub use sealing::{sealed_text, sealed_text_with};
pub use telling::{tell_sealed, tell_text};
