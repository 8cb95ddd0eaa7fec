//! Declarators outside of functions: what each declares, by its form (C99 6.9.2).

use p10_base::At;

/// How a declarator of an object declares it.
#[derive(Clone, Copy, Debug, PartialEq, Eq)]
pub enum Defining {
    /// It is defined elsewhere.
    Elsewhere,
    /// Tentatively: it counts unless another declarator has an initialiser (C99 6.9.2p2).
    Tentatively,
    /// With its initialiser, or a function with its body.
    Fully,
}

/// A declarator outside of functions.
#[derive(Debug, Drop)]
pub struct Outline<'s> {
    pub name: &'s [u8],
    /// Where the name stands.
    pub at: At,
    /// Whether it declares a function.
    pub function: bool,
    /// Whether `static` stands before it.
    pub internal: bool,
    pub defining: Defining,
}
