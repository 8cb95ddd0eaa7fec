//! Where objects are named in values, places and initialisers.

ghost use Rattle.std.specs.Prelude.{◌≡◌, ◌++◌, IfOk, map, option_map};
ghost use Rattle.p10_core.specs.Views.{plain_value, plain_place, plain_values, plain_form, plain_place_form, plain_initializer, plain_item, plain_written};
ghost use Rattle.p10_userules.specs.Occurrences.{occurrence, is_assertion, occurrences_in_value, occurrences_in_form, occurrences_in_place, occurrences_in_place_form, occurrences_in_values, occurrences_in_maybe, occurrences_in_written, occurrences_in_items, occurrences_in_initializer};

use p10_core::{Initializer, Item, Library, Place, PlaceForm, Value, ValueForm, Written};
use std::alloc::AllocError;

/// What a name stands for.
#[derive(Clone, Copy, Debug, PartialEq, Eq)]
pub enum Referent {
    /// A variable of the function that it stands in, by its number.
    Variable(u32),
    /// An object of static lifetime, by its number.
    Object(u32),
}

/// A naming in a program's text.
#[derive(Clone, Copy, Debug, PartialEq, Eq)]
pub struct Occurrence {
    pub referent: Referent,
    /// Whether it stands in an assertion or in the condition of an `if`.
    pub checked: bool,
}

/// Whether a function of the library is an assertion.
fn is_assertion(function: Library) -> bool
    ensures { result ≡ is_assertion function }
{
    match function {
        Library::Assert | Library::CAssert => true,
        Library::Getchar | Library::Putchar | Library::Malloc | Library::Calloc | Library::Free =>
            false,
    }
}

/// Puts an occurrence after the others.
fn put_occurrence(
    referent: Referent,
    checked: bool,
    out: &mut Vec<Occurrence>,
) -> Result<(), AllocError>
    ensures { IfOk result (λ _. out.new.items ≡ out.old.items ++ occurrence checked referent) }
{
    out.push(Occurrence { referent, checked })?;
    Ok(())
}

/// Puts the occurrences in a value after the others.
#[cycle(values)]
pub(crate) fn put_value(
    v: &Value,
    checked: bool,
    out: &mut Vec<Occurrence>,
) -> Result<(), AllocError>
    ensures { IfOk result (λ _. out.new.items ≡ out.old.items ++ occurrences_in_value checked (plain_value v.now)) }
{
    match &v.form {
        ValueForm::Const(_) => Ok(()),
        ValueForm::Sense(object) => put_occurrence(Referent::Object(*object), checked, out),
        ValueForm::Read(place) | ValueForm::Addr(place) | ValueForm::Decay(place) => {
            put_place(place, checked, out)
        }
        ValueForm::Convert(part) | ValueForm::Cast(part) | ValueForm::Unary(_, part) => {
            put_value(part, checked, out)
        }
        ValueForm::Binary(_, left, right) | ValueForm::Logic(_, left, right) => {
            put_value(left, checked, out)?;
            put_value(right, checked, out)
        }
        ValueForm::Cond(test, left, right) => {
            put_value(test, checked, out)?;
            put_value(left, checked, out)?;
            put_value(right, checked, out)
        }
        ValueForm::Call(_, _, arguments) => put_values(arguments.as_slice(), checked, out),
        ValueForm::Builtin(_, function, arguments) => {
            put_values(arguments.as_slice(), checked | is_assertion(*function), out)
        }
    }
}

/// Puts the occurrences in a place after the others.
#[cycle(values)]
pub(crate) fn put_place(
    p: &Place,
    checked: bool,
    out: &mut Vec<Occurrence>,
) -> Result<(), AllocError>
    ensures { IfOk result (λ _. out.new.items ≡ out.old.items ++ occurrences_in_place checked (plain_place p.now)) }
{
    match &p.form {
        PlaceForm::Var(number) => put_occurrence(Referent::Variable(*number), checked, out),
        PlaceForm::Global(number) => put_occurrence(Referent::Object(*number), checked, out),
        PlaceForm::Literal(_, _) => Ok(()),
        PlaceForm::Index(pointer, by) => {
            put_value(pointer, checked, out)?;
            put_value(by, checked, out)
        }
        PlaceForm::Member(whole, _) => put_place(whole, checked, out),
        PlaceForm::Deref(pointer) => put_value(pointer, checked, out),
    }
}

/// Puts the occurrences in values after the others.
#[cycle(values)]
fn put_values(all: &[Value], checked: bool, out: &mut Vec<Occurrence>) -> Result<(), AllocError>
    ensures { IfOk result (λ _. out.new.items ≡ out.old.items ++ occurrences_in_values checked (plain_values all.now)) }
{
    for v in all {
        put_value(v, checked, out)?;
    }
    Ok(())
}

/// Puts the occurrences in a value that may be lacking after the others.
pub(crate) fn put_maybe(v: &Option<Value>, out: &mut Vec<Occurrence>) -> Result<(), AllocError>
    ensures { IfOk result (λ _. out.new.items ≡ out.old.items ++ occurrences_in_maybe (option_map plain_value v.now)) }
{
    match v {
        Some(v) => put_value(v, false, out),
        None => Ok(()),
    }
}

/// Puts the occurrences in what is written for scalars after the others.
fn put_written(w: &Written, out: &mut Vec<Occurrence>) -> Result<(), AllocError>
    ensures { IfOk result (λ _. out.new.items ≡ out.old.items ++ occurrences_in_written (plain_written w.now)) }
{
    match w {
        Written::Scalar(v) => put_value(v, false, out),
        Written::Text(_) => Ok(()),
    }
}

/// Puts the occurrences in items of a list after the others.
fn put_items(all: &[Item], out: &mut Vec<Occurrence>) -> Result<(), AllocError>
    ensures { IfOk result (λ _. out.new.items ≡ out.old.items ++ occurrences_in_items (map plain_item all.now)) }
{
    for item in all {
        put_written(&item.written, out)?;
    }
    Ok(())
}

/// Puts the occurrences in an initialiser after the others.
pub(crate) fn put_initializer(i: &Initializer, out: &mut Vec<Occurrence>) -> Result<(), AllocError>
    ensures { IfOk result (λ _. out.new.items ≡ out.old.items ++ occurrences_in_initializer (plain_initializer i.now)) }
{
    match i {
        Initializer::Absent => Ok(()),
        Initializer::Single(v) => put_value(v, false, out),
        Initializer::Copied(p) => put_place(p, false, out),
        Initializer::Listed(_, items) => put_items(items.as_slice(), out),
    }
}
