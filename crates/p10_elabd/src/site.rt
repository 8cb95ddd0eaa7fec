//! Where specifiers stand, and what they say beside a type (C99 6.7.1 to 6.7.4).

/// Where specifiers stand.
#[derive(Clone, Copy, Debug, PartialEq, Eq)]
pub enum Site {
    /// Outside of functions.
    Outside,
    /// At a function with its body.
    OfDefinition,
    /// In a block.
    InBlock,
    /// In the first clause of a `for`.
    InFor,
    /// At members of a structure.
    OfMembers,
    /// At a parameter.
    OfParameter,
}

/// The storage that specifiers name (C99 6.7.1).
#[derive(Clone, Copy, Debug, PartialEq, Eq)]
pub enum Storage {
    /// No word of storage stands there.
    Unnamed,
    Typedef,
    Extern,
    Static,
}

/// What the declarators of a declaration allow among its specifiers.
#[derive(Clone, Copy, Debug)]
pub struct Allowed {
    /// `inline`: each declares a function, and `static` stands there.
    pub inline: bool,
    /// `volatile`: each declares a sensor.
    pub volatile: bool,
}
