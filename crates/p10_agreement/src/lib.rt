//! What `derive` writes, `verify` accepts: two commands of `p10` agree on a certificate and its bytes.
//!
//! Nothing runs here. `p10_derive_command` says what is right to say to `derive`, `p10_verify_command` what is right to say to `verify`; the
//! functions of [`laws`] stand for what joins both. So after
//!
//! ```text
//! p10 derive a.c > a.p10
//! ```
//!
//! has ended with status 0, `p10 verify --cert a.p10 a.c` ends with status 0 too, unless a read or a write fails or memory is out, as long as
//! `a.p10` holds exactly these bytes, and at each name at which `a.c` and what it includes are looked for there is what there was.
//! Invariant: files count only where gathering looks for them. That a derived certificate has a text and is accepted is left to the crates
//! below (`p10_names`, `p10_acceptance`), and what is answered to a command line to `p10_top`.
#![tactic(auto)]

pub mod laws;
