//! What declarators declare (C99 6.7.5).

use p10_base::At;
use p10_bindings::Bound;
use p10_core::CType;
use p10_elabx::Named;
use p10_syn::Identifier;

/// A parameter.
#[derive(Drop)]
pub struct DeclaredParameter<'s> {
    pub at: At,
    pub name: Option<Identifier<'s>>,
    pub ty: CType,
}

/// A function: its parameters and its result, and the names and tags that are declared among its parameters.
#[derive(Drop)]
pub struct DeclaredFunction<'s> {
    pub parameters: Vec<DeclaredParameter<'s>>,
    pub result: CType,
    pub names: Vec<Bound<'s, Named>>,
    pub tags: Vec<Bound<'s, Named>>,
}

/// A parameter where it is listed.
#[derive(Drop)]
pub struct PlacedParameter<'s> {
    pub at: At,
    pub name: Option<Identifier<'s>>,
    /// Its type, unless that is refused.
    pub ty: Option<CType>,
}

/// In which form the parameters of a function are listed.
#[derive(Clone, Copy, Debug)]
pub enum ParameterList {
    /// By their types alone.
    Fixed,
    /// By their types, with `...` after them.
    Variadic,
    /// Not at all, by `()`.
    Empty,
}

/// A function of which a part is refused, as far as it is known.
#[derive(Drop)]
pub struct RefusedFunction<'s> {
    pub parameters: Vec<PlacedParameter<'s>>,
    pub list: ParameterList,
    /// The type of its result, unless that is refused.
    pub result: Option<CType>,
}

/// What is declared.
#[derive(Drop)]
pub enum Declared<'s> {
    /// Something of a type.
    Plain(CType),
    /// An array whose length is lacking, with the type of its elements.
    OpenArray(CType),
    Function(DeclaredFunction<'s>),
    /// A function of which a part is refused.
    Refused(RefusedFunction<'s>),
}
