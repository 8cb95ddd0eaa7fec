//! Functions whose bodies differ between two programs: what is known outside of their bodies stays the same, but for places and for the
//! numbers of objects, literals and structures.
//!
//! Nothing runs here; the function of [`laws`] stands for the law. It holds of a function that becomes one in both programs, in which no row
//! holds, whatever its bodies declare. A body may complete a structure that the parameters declare:
//!
//!     int f(struct s *p) { struct s { int a; }; return p ? 1 : 0; }
//!
//! Then this structure differs between the programs from there on. But no name leads to it: only the type of `p` does, by which `f` is called,
//! and what points to any other structure doesn't fit it.
#![tactic(auto)]

pub mod laws;
