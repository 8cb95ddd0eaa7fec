//! Memory is allocated and freed during initialisation alone (Holzmann, "The Power of Ten", 2006, rule 3).
//!
//! Nothing runs here. `p10_flowrules` says which calls in `main` after the mark `init_done` allocate or free, themselves or through
//! other functions, and `p10_meaning` counts each allocation and `free` that a run executes after the mark. The functions of
//! [`laws`] stand for what joins both: where no such call is there, every run counts none.
//! No claim and no certificate has a part in it.
#![tactic(auto)]

pub mod laws;
