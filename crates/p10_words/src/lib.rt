//! The command line of `p10`: which words are which command.
//!
//! Entry point: [`read_words`], the words after the program's name as a [`Command`].
//!
//!     check --format json a.c        Check of the file a.c, as JSON
//!     derive a.c                     Derive of the file a.c, a text of version 1
//!     derive --cert-version 2 a.c    Derive of a.c, a text of version 2
//!     derive --diff a.c              Derive of a.c with ranks by differences, a text of version 2
//!     migrate --cert a.p10 a.c       Migrate of the certificate a.p10 and the file a.c
//!     verify --cert a.p10 a.c        Verify of the certificate a.p10 and the file a.c
//!     verify --clean --cert c a.c    Verify of the certificate c, which has to be clean, and a.c
//!     recheck --since o --cert c a.c Recheck of the certificates o and c, and a.c
//!     run a.c --steps=500            Run of a.c with 500 steps, 1 turn and no denied request
//!     run --cert a.p10 a.c           Run of a.c with the steps that the certificate a.p10 claims
//!     run --sensors v.txt a.c        Run of a.c with the sensor values in v.txt
//!     gen 700                        Generate, 700 functions
//!     run -v a.c                     Refused
//!
//! `clap` reads options and files; that its answer is exactly what the definitions say is proved.
//! Invariant: a command line is one command at most. What a command does is left to the crates above.
#![tactic(auto)]

mod command;
pub mod laws;
mod parse;
mod read;
mod recheck;
mod values;

pub use command::{Budget, Command, Usage};
pub use read::read_words;
