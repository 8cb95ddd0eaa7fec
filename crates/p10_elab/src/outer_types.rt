//! The types of objects outside of functions (C99 6.9.2).

ghost use Rattle.std.specs.Prelude.{◌≡◌, IfOk, Option, option_map, option_copied};
ghost use Rattle.p10_base.specs.declared.at.At.{At};
ghost use Rattle.p10_syn.specs.Built.{identifier_of, declarator_of};
ghost use Rattle.p10_syn.specs.BuiltStatements.{initial_of, init_declarator_of};
ghost use Rattle.p10_core.specs.Types.{plain_type};
ghost use Rattle.p10_elabx.specs.First.{only_first};
ghost use Rattle.p10_elabd.specs.Shapes.{of_type};
ghost use Rattle.p10_elabd.specs.Views.{plain_standing, plain_declared, told};
ghost use Rattle.p10_elabs.specs.Locals.{brackets_of};
ghost use Rattle.p10_linkage.specs.Linkage.{Linked};
ghost use Rattle.p10_linkage.specs.LinkedViews.{plain_kind, linked_of_name};
ghost use Rattle.p10_elab.specs.Outer.{composite_of, composite, is_array_object, is_array_before, gets_length, open_outside, array_outside, outer_type};

use p10_base::SubsetCode;
use p10_core::{CType, TypeForm};
use p10_elabd::{Declared, Standing, Storage};
use p10_elabs::{brackets_of, filled_array, is_written, open_noted};
use p10_heads::is_static;
use p10_linkage::{LinkedKind, LinkedName};
use p10_syn::{Identifier, Init, InitDeclarator};
use std::alloc::{AllocError, Global};

/// The type of an array with elements of a type, where an array of such was declared before.
fn composite_of(
    alloc: Global,
    element: &CType,
    kind: &LinkedKind,
) -> Result<Option<CType>, AllocError>
    ensures { IfOk result (λ t. option_map plain_type t ≡ composite_of (plain_type element.now) (plain_kind kind.now)) }
{
    match kind {
        LinkedKind::Object(whole) => match &whole.form {
            TypeForm::Array(of, _) => {
                if element.is_same(of) {
                    Ok(Some(whole.copy(alloc)?))
                } else {
                    Ok(None)
                }
            }
            TypeForm::Void | TypeForm::Int(_) | TypeForm::Pointer(_) | TypeForm::Struct(_) => Ok(
                None,
            ),
        },
        LinkedKind::Function(_, _) => Ok(None),
        LinkedKind::Refused(_) => Ok(None),
        LinkedKind::UnknownObject => Ok(None),
    }
}

/// The type of an array without a length that was declared before with one: the composite type (C99 6.2.7p4).
fn composite(
    alloc: Global,
    element: &CType,
    before: Option<&LinkedName<'_>>,
) -> Result<Option<CType>, AllocError>
    ensures { IfOk result (λ t. option_map plain_type t ≡ composite (plain_type element.now) (option_map linked_of_name (option_copied before.entry))) }
{
    match before {
        Some(before) => composite_of(alloc, element, &before.kind),
        None => Ok(None),
    }
}

/// Whether an array is declared.
fn is_array_object(kind: &LinkedKind) -> bool
    ensures { result ≡ is_array_object (plain_kind kind.now) }
{
    match kind {
        LinkedKind::Object(whole) => matches!(&whole.form, TypeForm::Array(_, _)),
        LinkedKind::Function(_, _) => false,
        LinkedKind::Refused(_) => false,
        LinkedKind::UnknownObject => false,
    }
}

/// Whether an array was declared before.
fn is_array_before(before: Option<&LinkedName<'_>>) -> bool
    ensures { result ≡ is_array_before (option_map linked_of_name (option_copied before.entry)) }
{
    match before {
        Some(before) => is_array_object(&before.kind),
        None => false,
    }
}

/// Whether an array without a length gets one from a declaration before.
fn gets_length(
    alloc: Global,
    before: Option<&LinkedName<'_>>,
    declared: &Option<Declared<'_>>,
) -> Result<bool, AllocError>
    ensures { IfOk result (λ gets. gets ≡ gets_length (option_map linked_of_name (option_copied before.entry)) (option_map plain_declared declared.now)) }
{
    match declared {
        Some(Declared::OpenArray(element)) => {
            let whole = composite(alloc, element, before)?;
            Ok(whole.is_some())
        }
        Some(Declared::Plain(_)) => Ok(is_array_before(before)),
        Some(Declared::Function(_)) => Ok(is_array_before(before)),
        Some(Declared::Refused(_)) => Ok(is_array_before(before)),
        None => Ok(is_array_before(before)),
    }
}

/// Notes an object that is an array without a length, and gets none from an initialiser or a declaration before.
pub(crate) fn open_outside<'s>(
    alloc: Global,
    standing: &mut Standing<'s>,
    name: Identifier<'s>,
    d: &InitDeclarator<'s>,
    before: Option<&LinkedName<'s>>,
    declared: &Option<Declared<'s>>,
) -> Result<(), AllocError>
    ensures { IfOk result (λ _. plain_standing standing.new ≡ open_outside only_first (identifier_of name.entry) (init_declarator_of d.now) (option_map linked_of_name (option_copied before.entry)) (option_map plain_declared declared.now) (plain_standing standing.old)) }
{
    if !gets_length(alloc, before, declared)? {
        open_noted(standing, name, d);
    }
    Ok(())
}

/// The type of an array without a length, by the one that it has together with a declaration before.
fn array_outside<'s>(
    alloc: Global,
    standing: &mut Standing<'s>,
    name: Identifier<'s>,
    d: &InitDeclarator<'s>,
    element: CType,
    whole: Option<CType>,
) -> Result<Option<CType>, AllocError>
    ensures { IfOk result (λ made. told (option_map plain_type made) standing.new ≡ array_outside only_first (identifier_of name.entry) (brackets_of (declarator_of d.now.declarator)) (plain_type element) (initial_of d.now.init) (option_map plain_type whole) (plain_standing standing.old)) }
{
    match whole {
        Some(whole) => Ok(Some(whole)),
        None => match &d.init {
            None => Ok(None),
            Some(i) => {
                let brackets = brackets_of(&d.declarator);
                let made = filled_array(alloc, standing, name, brackets, element, i)?;
                Ok(made)
            }
        },
    }
}

/// How an object is declared outside of functions.
#[derive(Clone, Copy)]
pub(crate) struct Manner<'k, 's> {
    pub storage: Storage,
    pub name: Identifier<'s>,
    /// The declaration of its name before, if there is one.
    pub before: Option<&'k LinkedName<'s>>,
}

/// The type of an object at its declaration: with an initialiser, or where `static` stands, it has a size; else it may get one before
/// the root ends.
pub(crate) fn outer_type<'s>(
    alloc: Global,
    standing: &mut Standing<'s>,
    manner: Manner<'_, 's>,
    d: &InitDeclarator<'s>,
    declared: Declared<'s>,
) -> Result<Option<CType>, AllocError>
    ensures { IfOk result (λ made. told (option_map plain_type made) standing.new ≡ outer_type only_first (identifier_of manner.entry.name) (brackets_of (declarator_of d.now.declarator)) manner.entry.storage (initial_of d.now.init) (option_map linked_of_name (option_copied manner.entry.before)) (plain_declared declared.entry) (plain_standing standing.old)) }
{
    match declared {
        Declared::Plain(ty) => Ok(plain_outer_type(
            standing,
            manner.storage,
            manner.name,
            &d.init,
            ty,
        )),
        Declared::OpenArray(element) => {
            let whole = composite(alloc, &element, manner.before)?;
            let made = array_outside(alloc, standing, manner.name, d, element, whole)?;
            Ok(made)
        }
        Declared::Function(_) | Declared::Refused(_) => Ok(None),
    }
}

/// The type of an object that isn't an array without a length.
fn plain_outer_type<'s>(
    standing: &mut Standing<'s>,
    storage: Storage,
    name: Identifier<'s>,
    initial: &Option<Init<'s>>,
    ty: CType,
) -> Option<CType>
    ensures { (brackets : At) (before : Option Linked) → told (option_map plain_type result) standing.new ≡ outer_type only_first (identifier_of name.entry) brackets storage (initial_of initial.now) before (of_type (plain_type ty)) (plain_standing standing.old) }
{
    let closed = is_written(initial) | (is_static(storage) | ty.is_void());
    let kept = standing.scope.types.is_complete(&ty) | !closed;
    if kept {
        Some(ty)
    } else {
        standing.refuse(SubsetCode::IncompleteType, name.at);
        None
    }
}
