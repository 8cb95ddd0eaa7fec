//! How often a loop enters its body: the law of ranks, and what the evidence of ranges is worth.
//!
//! Nothing runs here. The definitions in `specs/` say how often a run of a loop enters its body (`specs/Entrances.antt`), what a pass
//! has to find of a loop and its claim (`specs/Ranked.antt`), for which loops the evidence of ranges stands (`specs/Evidence.antt`), and
//! what that is worth (`specs/Laws.antt`); the functions of [`laws`] stand for these laws. So where a trial pass over
//! `while (i < 3) { i = i + 1; }` finds that `i` lies in [0, 3] at each head and has grown by 1 on each way back, the claim
//! `up i 3 turns 3` stands, and every run from a frame in which `i` lies in [0, 3] enters the body three times at most.
//! Invariant: at each head the claim's rank, of what its variable holds there, is at most the turns that are left.
//! That callees keep their claims, and that the turns bound a run's steps, is left to the crates above.
#![tactic(auto)]

pub mod laws;
