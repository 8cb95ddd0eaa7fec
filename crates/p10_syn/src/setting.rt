//! In what surroundings declarators and specifiers stand.

/// Whether a declarator has a name.
#[derive(Clone, Copy, Debug, PartialEq, Eq)]
pub enum Naming {
    /// It has one, as in a declaration.
    Required,
    /// It may have one, as in a parameter.
    Allowed,
    /// It has none, as in the name of a type.
    Forbidden,
}

/// Where specifiers stand, as far as it decides which of them there may be.
#[derive(Clone, Copy, Debug, PartialEq, Eq)]
pub enum Setting {
    /// Outside of any name of a type.
    Outside,
    /// They are those of the name of a type: no storage class, no body of a structure, union or
    /// enumeration.
    Type,
    /// Deeper inside the name of a type, as in a parameter: no body.
    Inside,
}

/// What specifiers say of a type so far.
#[derive(Clone, Copy, Debug, PartialEq, Eq)]
pub enum Said {
    /// Nothing.
    Nothing,
    /// A word of a type, a structure, a union or an enumeration.
    Words,
    /// A typedef name.
    TypedefName,
}
