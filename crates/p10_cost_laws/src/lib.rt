//! Laws of the sums of a certificate, beside those that `p10_sums` states of its definitions itself.
//!
//! Nothing runs here; the functions of [`laws`] stand for the laws. `p10_sums` says that no execution takes more than its cost; here
//! stands that straight-line statements take no less, which a cost that is too great would break (`specs/Exactly.antt`).
//! What the crates above need of costs they take from `p10_sums`; nothing stands on these laws.
#![tactic(auto)]

pub mod laws;
