//! What is known of a function's integer variables after its statements.
//!
//! Entry points: [`pass`], over the body of a function under a certificate, and [`pass_stmt`], over one statement, also in a
//! trial pass, in which nothing is claimed. Under a claim, a loop is entered with its claimed ranges ([`head`]), passed once
//! ([`one_round`]), and left by its test or its `break`s. Over `for (i = 0; i < 10; i++) { s += 2; }` under
//! `loop 0 up 1 10 turns 10`, `var 1 0 10`:
//!
//!     head       i in [0, 10], its offset [0, 0] about itself
//!     body       i in [0, 9]
//!     back       i in [1, 10], its offset [1, 1]: the rank has fallen (K9), the claimed range holds again (K7)
//!     after      i in [10, 10]
//!
//! The definitions stand in `specs/Passing.antt`: a row for each form of statement, by its four ways to end. The pass is a
//! function of any program, certificate and environment, so nothing is asked of a caller; what fails is given by its number
//! and its place. It fails only where memory runs out; 2^32 variables count as that, too.
//! Invariant: what parts leave is joined in text order, and joining is associative, so lists are passed by loops.
//! Evidence for the loops that are given as weak, and whether a certificate is accepted, are left to the crates above.
#![tactic(auto)]

mod arguments;
mod assigning;
mod calling;
mod calls;
mod claiming;
pub mod laws;
mod left;
mod loops;
mod manner;
mod marks;
mod passed;
mod renewal;
mod returning;
mod rounds;
mod scopes;
mod walk;

pub use calls::{head, pass, pass_stmt};
pub use claiming::{enters_ranked, goes_back_ranked, head_under, is_enough, ranges_hold};
pub use left::{Fail, Left, Weak};
pub use manner::Manner;
pub use marks::{assigned_marks, is_marked, label_marks};
pub use passed::Passed;
pub use rounds::Round;
pub use walk::{one_round, pass_statement, pass_statements};
