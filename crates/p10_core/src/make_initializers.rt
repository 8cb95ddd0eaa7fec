//! Initialisers and functions, made of their parts.

ghost use Rattle.std.specs.Prelude.{◌≡◌, map};
ghost use Rattle.p10_core.specs.Types.{plain_type};
ghost use Rattle.p10_core.specs.Typed.{one_scalar, scalars_of_text, single, copied, listed};
ghost use Rattle.p10_core.specs.Views.{plain_value, plain_place, plain_item, plain_initializer, plain_variable, plain_statements, plain_function};

use crate::c_type::CType;
use crate::program::{Func, Variable};
use crate::statements::{Initializer, Item, Stmt, Written};
use crate::typed::{Place, Value};
use p10_base::{At, ListBuf, Span};

impl Item {
    /// A value for the scalar at a place.
    pub fn value(place: u64, value: Value) -> Item
        ensures { plain_item result ≡ record { scalar = place; written = one_scalar (plain_value value) } }
    {
        Item {
            scalar: place,
            written: Written::Scalar(value),
        }
    }

    /// The bytes of a string literal, for the scalars from a place on.
    pub fn text(place: u64, bytes: Vec<u8>) -> Item
        ensures { plain_item result ≡ record { scalar = place; written = scalars_of_text bytes.items } }
    {
        Item {
            scalar: place,
            written: Written::Text(ListBuf::of(bytes)),
        }
    }
}

impl Initializer {
    /// The value of a scalar.
    pub fn single(value: Value) -> Initializer
        ensures { plain_initializer result ≡ single (plain_value value) }
    {
        Initializer::Single(value)
    }

    /// A structure that is copied.
    pub fn copied(from: Place) -> Initializer
        ensures { plain_initializer result ≡ copied (plain_place from) }
    {
        Initializer::Copied(from)
    }

    /// Items for the scalars of an aggregate, with the place of their list.
    pub fn listed(at: At, items: Vec<Item>) -> Initializer
        ensures { plain_initializer result ≡ listed at (map plain_item items.items) }
    {
        Initializer::Listed(at, ListBuf::of(items))
    }
}

/// What a function is before its body is read.
#[derive(Drop)]
pub struct Heading<'s> {
    pub name: &'s [u8],
    /// The name's span.
    pub span: Span,
    /// Whether it is `static`.
    pub is_static: bool,
    pub result: CType,
}

impl<'s> Func<'s> {
    /// A function of its heading, its variables, of which the first `params` are parameters, and the items of its body.
    pub fn of(
        heading: Heading<'s>,
        params: u32,
        vars: Vec<Variable<'s>>,
        body: Vec<Stmt>,
    ) -> Func<'s>
        ensures { plain_function result ≡ record {
          name = heading.entry.name.now;
          span = heading.entry.span;
          static = heading.entry.is_static;
          parameters = params;
          result = plain_type heading.entry.result;
          variables = map plain_variable vars.entry.items;
          body = plain_statements body.items;
        } }
    {
        Func {
            name: heading.name,
            span: heading.span,
            is_static: heading.is_static,
            params,
            result: heading.result,
            vars: ListBuf::of(vars),
            body: ListBuf::of(body),
        }
    }
}
