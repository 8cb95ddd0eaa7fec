//! Whether conversions that aren't written, and casts, are allowed (C99 6.3, 6.5.4).

ghost use Rattle.std.specs.Prelude.{◌≡◌};
ghost use Rattle.p10_core.specs.Types.{plain_type};
ghost use Rattle.p10_core.specs.Views.{plain_value, plain_form};
ghost use Rattle.p10_core.specs.Constants.{is_null};
ghost use Rattle.p10_core.specs.Whole.{Converts, Casts};
ghost use Rattle.p10_whole.specs.private.Agreeing.{target_type, adds_at_target, is_null_at};
ghost use Rattle.p10_whole.specs.private.Places.{library_in, gives_memory};
ghost use Rattle.p10_whole.specs.private.Shows.{Shows};

use crate::shapes::{is_bare_void, is_integer, is_pointer, target_type};
use crate::types::are_same;
use p10_core::{CType, Library, Value, ValueForm, is_null};

/// Whether a value may be converted to a type where no cast is written.
pub(crate) fn converts(t: &CType, v: &Value) -> bool
    ensures { Shows result (Converts (plain_type t.now) (plain_value v.now)) }
{
    let from = is_integer(&v.ty);
    (is_integer(t) & from) | (adds_at_target(&v.ty, t) | (from & is_null_at(t, v)))
}

/// Whether a value may be cast to a type.
pub(crate) fn casts(t: &CType, v: &Value) -> bool
    ensures { Shows result (Casts (plain_type t.now) (plain_value v.now)) }
{
    let from = is_integer(&v.ty);
    is_bare_void(t)
        | ((is_integer(t) & from)
            | ((from & is_null_at(t, v))
                | (is_pointer(t) & (are_same(&v.ty, t) & gives_memory(library_in(&v.form))))))
}

/// Whether one type is a pointer whose target is that of another one, with `const` added.
fn adds_at_target(from: &CType, to: &CType) -> bool
    ensures { result ≡ adds_at_target (target_type (plain_type from.now)) (target_type (plain_type to.now)) }
{
    match (target_type(from), target_type(to)) {
        (Some(source), Some(target)) => source.adds_const(target),
        _ => false,
    }
}

/// Whether a value is a null constant, where a pointer is needed. No other type asks, so that no constant is folded anew for
/// each conversion round it.
fn is_null_at(t: &CType, v: &Value) -> bool
    ensures { result ≡ is_null_at (target_type (plain_type t.now)) (is_null (plain_value v.now)) }
{
    match target_type(t) {
        Some(_) => is_null(v),
        None => false,
    }
}

/// Whether a library function gives memory.
fn gives_memory(library: Option<Library>) -> bool
    ensures { result ≡ gives_memory library }
{
    match library {
        Some(Library::Malloc) | Some(Library::Calloc) => true,
        Some(Library::Assert)
        | Some(Library::CAssert)
        | Some(Library::Getchar)
        | Some(Library::Putchar)
        | Some(Library::Free)
        | None => false,
    }
}

/// The library function that a form of value calls.
fn library_in(form: &ValueForm) -> Option<Library>
    ensures { result ≡ library_in (plain_form form.now) }
{
    match form {
        ValueForm::Builtin(_, library, _) => Some(*library),
        ValueForm::Call(_, _, _) => None,
        ValueForm::Const(_)
        | ValueForm::Read(_)
        | ValueForm::Sense(_)
        | ValueForm::Addr(_)
        | ValueForm::Decay(_)
        | ValueForm::Convert(_)
        | ValueForm::Cast(_)
        | ValueForm::Unary(_, _)
        | ValueForm::Binary(_, _, _)
        | ValueForm::Logic(_, _, _)
        | ValueForm::Cond(_, _, _) => None,
    }
}
