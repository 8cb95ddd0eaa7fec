//! Lifetimes of objects (C99 6.2.4).

/// The lifetime of what is initialised.
#[derive(Clone, Copy, Debug, PartialEq, Eq)]
pub enum Lifetime {
    Automatic,
    /// The initialiser consists of constants (C99 6.7.8p4).
    Static,
}
