//! Whether calls of library functions are whole.

ghost use Rattle.std.specs.Prelude.{◌≡◌, option_map, option_copied};
ghost use Rattle.p10_core.specs.Types.{plain_type};
ghost use Rattle.p10_core.specs.Views.{plain_types, plain_values};
ghost use Rattle.p10_whole.specs.private.Agreeing.{target_type};
ghost use Rattle.p10_whole.specs.private.Places.{only_type, has_none, is_library, is_kind_at, is_scalar_at, is_pointer_at, is_sized, counts};

use crate::shapes::{has_kind, target_type};
use p10_core::{CType, Library, Types, Value};
use p10_int::IntType;

/// Whether a call of a library function has a type and arguments as the function asks.
pub(crate) fn is_library(
    types: &Types<'_>,
    t: &CType,
    library: Library,
    arguments: &[Value],
) -> bool
    ensures { result ≡ is_library (plain_types types.now) (plain_type t.now) library (plain_values arguments.now) }
{
    match library {
        Library::Assert => false,
        Library::CAssert => has_kind(IntType::Int, t) & is_scalar_at(only_type(arguments)),
        Library::Getchar => has_kind(IntType::Int, t) & has_none(arguments),
        Library::Putchar => has_kind(IntType::Int, t)
            & is_kind_at(IntType::Int, only_type(arguments)),
        Library::Malloc | Library::Calloc => is_sized(types, t) & counts(arguments),
        Library::Free => (t.is_void() & !t.is_const) & is_pointer_at(only_type(arguments)),
    }
}

/// The type of the only argument.
fn only_type(arguments: &[Value]) -> Option<&CType>
    ensures { option_map plain_type (option_copied result) ≡ only_type (plain_values arguments.now) }
{
    if arguments.len() == 1 {
        Some(&arguments[0].ty)
    } else {
        None
    }
}

/// Whether there are no arguments.
fn has_none(arguments: &[Value]) -> bool
    ensures { result ≡ has_none (plain_values arguments.now) }
{
    arguments.is_empty()
}

/// Whether a type that may be lacking is the integer type `kind`.
fn is_kind_at(kind: IntType, t: Option<&CType>) -> bool
    ensures { result ≡ is_kind_at kind (option_map plain_type (option_copied t.entry)) }
{
    match t {
        Some(t) => has_kind(kind, t),
        None => false,
    }
}

/// Whether a type that may be lacking is that of a scalar.
fn is_scalar_at(t: Option<&CType>) -> bool
    ensures { result ≡ is_scalar_at (option_map plain_type (option_copied t.entry)) }
{
    match t {
        Some(t) => t.is_scalar(),
        None => false,
    }
}

/// Whether a type that may be lacking is a pointer.
fn is_pointer_at(t: Option<&CType>) -> bool
    ensures { result ≡ is_pointer_at (option_map plain_type (option_copied t.entry)) }
{
    match t {
        Some(t) => target_type(t).is_some(),
        None => false,
    }
}

/// Whether a type is a pointer to a type that has a size.
fn is_sized(types: &Types<'_>, t: &CType) -> bool
    ensures { result ≡ is_sized (plain_types types.now) (target_type (plain_type t.now)) }
{
    match target_type(t) {
        Some(target) => types.is_complete(target),
        None => false,
    }
}

/// Whether arguments are a number of elements, or none.
fn counts(arguments: &[Value]) -> bool
    ensures { result ≡ counts (plain_values arguments.now) }
{
    has_none(arguments) | is_kind_at(IntType::ULong, only_type(arguments))
}
