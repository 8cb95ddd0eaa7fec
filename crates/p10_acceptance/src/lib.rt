//! What derivation answers is accepted: the certificate that is found for a program is one that checking accepts.
//!
//! Nothing runs here. `p10_finder` says which claims a derived certificate makes, and `p10_check` when a certificate is accepted. The
//! functions of [`laws`] stand for what joins both. So for
//!
//! ```c
//! int main(void) { int s = 0; for (uint8_t i = 0; i < 10; i++) { s += 2; } return s; }
//! ```
//!
//! the certificate that derivation answers, with `loop 0 up 1 10 turns 10`, is accepted, and no other verdict on it is right.
//! Derivation and checking walk through a body in the same way, but derivation chooses a loop's claims before it knows those of the loops
//! inside and after it. The lemmas show that what was taken stands under the whole certificate.
#![tactic(auto)]

pub mod laws;
