//! Functions and objects that are declared outside of functions: they have linkage (C99 6.2.2).

use p10_base::At;
use p10_core::CType;
use p10_elabd::ParameterList;

/// A function of which a part is refused, as far as it is known.
#[derive(Drop)]
pub struct PartKind {
    /// The types of its parameters without marks, unless they are refused.
    pub parameters: Vec<Option<CType>>,
    /// In which form they are listed.
    pub list: ParameterList,
    /// The type of its result, unless that is refused.
    pub result: Option<CType>,
}

/// What is declared.
#[derive(Drop)]
pub enum LinkedKind {
    /// A function, with the types of its parameters without marks, and its result.
    Function(Vec<CType>, CType),
    /// An object.
    Object(CType),
    /// A function of which a part is refused.
    Refused(PartKind),
    /// An object of which no more is known, since its type is refused.
    UnknownObject,
}

/// A declaration of a function or an object outside of functions.
#[derive(Drop)]
pub struct LinkedName<'s> {
    /// The number of its root.
    pub root: u32,
    pub name: &'s [u8],
    /// Where the name stands.
    pub at: At,
    pub kind: LinkedKind,
    /// Whether what it names is internal to its root.
    pub internal: bool,
    /// Whether it has a body or an initialiser.
    pub defines: bool,
    /// Whether it declares a sensor.
    pub sensor: bool,
}
