//! Programs that have the same words outside of bodies and in a function have the same view of that function.
//!
//! Nothing runs here; the functions of [`laws`] stand for the laws. The words of both programs have a digest for each function, which the
//! front counts before it gives them. What a body declares may complete a structure of another root, as in
//!
//!     int f(struct s *p) { struct s { int a; }; return p ? 1 : 0; }
//!
//!     struct s;
//!     int f(struct s *p);
//!     static int g(struct s *p) { return f(&*p); }
//!
//! But no condition on a certificate asks for the scalars of such a structure: where they are copied or initialised, it is complete in its own
//! root.
#![tactic(auto)]

pub mod laws;
