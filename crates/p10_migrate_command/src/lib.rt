//! The command `migrate` of `p10`: the text of version 2 with the claims of a certificate and the digests of the program's words.
//!
//!     migrate --cert a.p10 a.c       p10cert 2
//!                                    func main rank 0 steps 3 calls 1 bytes 0 alloc 0
//!                                    digest 3f286a42be5f9e8b5f04e92fb52e39594fca283a250b992f40092282dfc7dee8
//!                                    result 0 0
//!                                    outside 0af5df4c563f5a002c32e11302487c0f96763d43172a99783c3cb2cfa2d7527d
//!                                    total prefix 3 turn 0 calls 1 bytes 0
//!                                    end
//!
//! Entry point: [`migrate`]. The certificate may be of either version. It has to speak of the program: of its words, where it has digests
//! (K0), and of its functions and loops (K1). Whether its claims are true is left to `verify`, which says of the text that is written
//! what it says of these claims. Sections aren't written. Invariant: the status and both texts are those of a right answer, and where
//! the files are told at most one is right, unless a read fails or memory runs out. Which words are this command is left to the crate
//! above.
#![tactic(auto)]

mod answer;
mod command;
mod decide;
pub mod laws;
mod migration;
mod tell;

pub use answer::Answer;
pub use command::{MigrateCommand, migrate};
pub use migration::Migration;
