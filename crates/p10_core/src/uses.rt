//! What a node of a typed tree uses: a function, an object of static lifetime or a string literal.

ghost use Rattle.std.specs.Prelude.{◌≡◌, option_map};
ghost use Rattle.p10_core.specs.Views.{plain_form, plain_place_form};
ghost use Rattle.p10_core.specs.Uses.{manages_memory, called_by, sensed_by, named_by, literal_of, function_used, object_used, literal_used};
ghost use Rattle.p10_core.specs.Walks.{plain_node};

use crate::nodes::Node;
use crate::typed::{Library, PlaceForm, ValueForm};
use p10_base::{At, Span};

/// Whether a library function allocates or frees.
pub fn manages_memory(library: Library) -> bool
    ensures { result ≡ manages_memory library }
{
    match library {
        Library::Assert | Library::CAssert | Library::Getchar | Library::Putchar => false,
        Library::Malloc | Library::Calloc | Library::Free => true,
    }
}

/// A call of a function.
#[derive(Clone, Copy, Debug)]
pub struct FunctionUse {
    /// Where the call stands.
    pub at: At,
    /// The span of the function's name.
    pub name: Span,
    /// The function's number.
    pub function: u32,
}

/// A use of an object of static lifetime.
#[derive(Clone, Copy, Debug)]
pub struct ObjectUse {
    /// Where it stands.
    pub at: At,
    /// The object's number.
    pub object: u32,
}

impl<'p> Node<'p> {
    /// The function that the node calls, if it is a call.
    pub fn function_used(self) -> Option<FunctionUse>
        ensures { result ≡ function_used (plain_node self.entry) }
    {
        match self {
            Node::Value(value) => called_by(value.at, &value.form),
            Node::Stmt(_) | Node::Place(_) => None,
        }
    }

    /// The object of static lifetime that the node reads as a sensor, or is, if it does or is.
    pub fn object_used(self) -> Option<ObjectUse>
        ensures { result ≡ object_used (plain_node self.entry) }
    {
        match self {
            Node::Value(value) => sensed_by(value.at, &value.form),
            Node::Place(place) => named_by(place.at, &place.form),
            Node::Stmt(_) => None,
        }
    }

    /// The number and the bytes of the string literal that the node is, if it is one.
    pub fn literal_used(self) -> Option<(u32, &'p [u8])>
        ensures { option_map (λ l. record { number = l.0; bytes = l.1.now }) result ≡ literal_used (plain_node self.entry) }
    {
        match self {
            Node::Place(place) => literal_of(&place.form),
            Node::Stmt(_) | Node::Value(_) => None,
        }
    }
}

/// The function that a form of value calls.
fn called_by(at: At, form: &ValueForm) -> Option<FunctionUse>
    ensures { result ≡ called_by at (plain_form form.now) }
{
    match form {
        ValueForm::Call(name, function, _) => Some(FunctionUse {
            at,
            name: *name,
            function: *function,
        }),
        ValueForm::Builtin(_, _, _) => None,
        ValueForm::Const(_)
        | ValueForm::Read(_)
        | ValueForm::Sense(_)
        | ValueForm::Addr(_)
        | ValueForm::Decay(_)
        | ValueForm::Convert(_)
        | ValueForm::Cast(_)
        | ValueForm::Unary(_, _)
        | ValueForm::Binary(_, _, _)
        | ValueForm::Logic(_, _, _)
        | ValueForm::Cond(_, _, _) => None,
    }
}

/// The sensor that a form of value reads.
fn sensed_by(at: At, form: &ValueForm) -> Option<ObjectUse>
    ensures { result ≡ sensed_by at (plain_form form.now) }
{
    match form {
        ValueForm::Sense(object) => Some(ObjectUse {
            at,
            object: *object,
        }),
        ValueForm::Call(_, _, _) | ValueForm::Builtin(_, _, _) => None,
        ValueForm::Const(_)
        | ValueForm::Read(_)
        | ValueForm::Addr(_)
        | ValueForm::Decay(_)
        | ValueForm::Convert(_)
        | ValueForm::Cast(_)
        | ValueForm::Unary(_, _)
        | ValueForm::Binary(_, _, _)
        | ValueForm::Logic(_, _, _)
        | ValueForm::Cond(_, _, _) => None,
    }
}

/// The object that a form of place is.
fn named_by(at: At, form: &PlaceForm) -> Option<ObjectUse>
    ensures { result ≡ named_by at (plain_place_form form.now) }
{
    match form {
        PlaceForm::Global(object) => Some(ObjectUse {
            at,
            object: *object,
        }),
        PlaceForm::Var(_)
        | PlaceForm::Literal(_, _)
        | PlaceForm::Index(_, _)
        | PlaceForm::Member(_, _)
        | PlaceForm::Deref(_) => None,
    }
}

/// The number and the bytes of the string literal that a form of place is.
fn literal_of(form: &PlaceForm) -> Option<(u32, &[u8])>
    ensures { option_map (λ l. record { number = l.0; bytes = l.1.now }) result ≡ literal_of (plain_place_form form.now) }
{
    match form {
        PlaceForm::Literal(number, bytes) => Some((*number, bytes.as_slice())),
        PlaceForm::Var(_)
        | PlaceForm::Global(_)
        | PlaceForm::Index(_, _)
        | PlaceForm::Member(_, _)
        | PlaceForm::Deref(_) => None,
    }
}
