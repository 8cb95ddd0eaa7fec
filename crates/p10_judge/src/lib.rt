//! Certificates of programs are judged: what a certificate's file comes to, for a program.
//!
//!     a.p10 for a.c                  accepted: prefix 3 turn 0 calls 1 bytes 0
//!                                    refused: K11 a.c:1:5
//!
//! Entry points, in the order in which a command calls them: [`load_certificate`] reads the file, and [`weigh`] says what its bytes
//! come to for a program and the digests of its words: they are over the limit, or the text of no certificate, or of one whose section
//! of ranks has a line of another form, or of one that speaks of other words, or a condition on program and certificate fails, or it is accepted, and bounds every run; [`weigh_whole`] says the
//! same, and gives the claims of an accepted one. [`put_judgement`] prints it. In parts: [`read`] gives the claims of a text of either
//! version with the digests that it keeps, [`first_stale`] the first function whose digest is another, [`name_at`] its place, [`ranks_among`]
//! the ranks of a text that is read, and [`judgement_on`] the judgement by a verdict on it.
//! Invariant: each judgement comes exactly where it is right, and for a file and a program there is one, unless a read fails or memory
//! runs out. How the program is read, and what is done with it, is left to the crates above.
#![tactic(auto)]

mod judgement;
pub mod laws;
mod loading;
mod places;
mod ranks;
mod reading;
mod stale;
mod weighing;
mod whole;

pub use judgement::{Judgement, put_judgement};
pub use loading::load_certificate;
pub use places::name_at;
pub use ranks::{Ranks, ranks_among};
pub use reading::{Text, read};
pub use stale::{Stale, first_stale};
pub use weighing::{judgement_on, weigh};
pub use whole::{Weighed, weigh_whole};
