//! What declarations with linkage declare, whether they agree within a root, and the form of `main` (C99 6.2.2, 6.7p4, 5.1.2.2.1).

ghost use Rattle.std.specs.Prelude.{◌≡◌, option_map, option_copied};
ghost use Rattle.p10_core.specs.Rows.{same, int_type};
ghost use Rattle.p10_core.specs.Types.{plain_type};
ghost use Rattle.p10_elabx.specs.First.{problems};
ghost use Rattle.p10_linkage.specs.LinkedViews.{plain_kind, linked_of_name};
ghost use Rattle.p10_linkage.specs.Linkage.{is_function, same_objects, same_linked, is_static, is_like_extern, internal_by, differs, is_main_name, has_main_form, is_main, main_problem};

use crate::linked::{LinkedKind, LinkedName};
use crate::listing::same_functions;
use p10_base::{At, SubsetCode};
use p10_core::{CType, TypeForm};
use p10_elabd::Storage;
use p10_elabx::Problem;
use p10_int::IntType;

/// Whether a function is declared.
pub fn is_function(kind: &LinkedKind) -> bool
    ensures { result ≡ is_function (plain_kind kind.now) }
{
    match kind {
        LinkedKind::Function(_, _) => true,
        LinkedKind::Refused(_) => true,
        LinkedKind::Object(_) | LinkedKind::UnknownObject => false,
    }
}

/// Whether two declarations of which one is no function declare the same, as far as that is known.
fn same_objects(one: &LinkedKind, other: &LinkedKind) -> bool
    ensures { result ≡ same_objects (plain_kind one.now) (plain_kind other.now) }
{
    match (one, other) {
        (LinkedKind::Object(t), LinkedKind::Object(u)) => t.is_same(u),
        _ => is_function(one) == is_function(other),
    }
}

/// Whether two declarations of a root declare the same, as far as that is known.
fn same_linked(before: &LinkedName<'_>, now: &LinkedName<'_>) -> bool
    ensures { result ≡ same_linked (linked_of_name before.now) (linked_of_name now.now) }
{
    let functions = is_function(&before.kind) && is_function(&now.kind);
    if functions {
        same_functions(before, now)
    } else {
        same_objects(&before.kind, &now.kind)
    }
}

/// Whether `static` stands at a declaration.
pub fn is_static(storage: Storage) -> bool
    ensures { result ≡ is_static storage }
{
    storage == Storage::Static
}

/// Whether a declaration is as `extern` ones are: a function without a storage word is too (C99 6.2.2p5).
fn is_like_extern(storage: Storage, kind: &LinkedKind) -> bool
    ensures { result ≡ is_like_extern storage (plain_kind kind.now) }
{
    match storage {
        Storage::Extern => true,
        Storage::Unnamed => is_function(kind),
        Storage::Typedef | Storage::Static => false,
    }
}

/// Whether what is declared is internal to its root: `static` makes it so, and `extern` leaves it as it was (C99 6.2.2p3 to p5).
pub fn internal_by(storage: Storage, kind: &LinkedKind, before: Option<&LinkedName<'_>>) -> bool
    ensures { result ≡ internal_by storage (plain_kind kind.now) (option_map linked_of_name (option_copied before.entry)) }
{
    match before {
        Some(before) => {
            let as_before = is_like_extern(storage, kind) && before.internal;
            is_static(storage) || as_before
        }
        None => is_static(storage),
    }
}

/// Whether a declaration doesn't agree with one before it in its root: in its type, its linkage or its mark for sensors.
pub fn differs(before: &LinkedName<'_>, now: &LinkedName<'_>) -> bool
    ensures { result ≡ differs (linked_of_name before.now) (linked_of_name now.now) }
{
    !same_linked(before, now) || (before.internal != now.internal || before.sensor != now.sensor)
}

/// Whether a name is `main`.
pub fn is_main_name(name: &[u8]) -> bool
    ensures { result ≡ is_main_name name.now }
{
    name == b"main".as_slice()
}

/// Whether a declaration is `int main(void)` with external linkage (C99 5.1.2.2.1).
pub fn is_main(linked: &LinkedName<'_>) -> bool
    ensures { result ≡ is_main (linked_of_name linked.now) }
{
    !linked.internal && has_main_form(&linked.kind)
}

/// Whether a function has no parameters and gives an `int`, as far as that is known.
fn has_main_form(kind: &LinkedKind) -> bool
    ensures { result ≡ has_main_form (plain_kind kind.now) }
{
    match kind {
        LinkedKind::Function(parameters, result) => parameters.is_empty() && is_int(result),
        LinkedKind::Refused(_) => true,
        LinkedKind::Object(_) | LinkedKind::UnknownObject => false,
    }
}

/// Whether a type is `int`, without a mark.
fn is_int(t: &CType) -> bool
    ensures { result ≡ same (plain_type t.now) int_type }
{
    t.is_same(&CType {
        is_const: false,
        form: TypeForm::Int(IntType::Int),
    })
}

/// A `main` of another form, at its name.
pub fn main_problem(good: bool, name: &[u8], at: At) -> Option<Problem>
    ensures { problems result ≡ main_problem good name.now at }
{
    if is_main_name(name) && !good {
        Some(Problem {
            code: SubsetCode::BadMain,
            at,
        })
    } else {
        None
    }
}
