//! Pointers and arrays in declarators, one at a time (C99 6.7.5.1, 6.7.5.2).

ghost use Rattle.std.specs.Prelude.{◌≡◌, IfOk, map, option_map};
ghost use Rattle.p10_syn.specs.Built.{qualifier_of};
ghost use Rattle.p10_core.specs.Types.{plain_type};
ghost use Rattle.p10_elabx.specs.First.{only_first};
ghost use Rattle.p10_elabd.specs.Shapes.{pointed_to, pointer_declared, element_type, element_declared};
ghost use Rattle.p10_elabd.specs.Views.{plain_standing, plain_declared, told};

use crate::declaration::Declared;
use crate::standing::Standing;
use p10_base::{At, SubsetCode};
use p10_core::{CType, TypeForm};
use p10_elabx::{has_const_word, other_word};
use p10_syn::Qualifier;
use std::alloc::{AllocError, Global};

/// A pointer to what is declared: not to `void`; one to a function is refused by its form; an array without a length has no type.
fn pointed_to<'s>(
    alloc: Global,
    standing: &mut Standing<'s>,
    at: At,
    name_at: At,
    constant: bool,
    target: Declared<'s>,
) -> Result<Option<Declared<'s>>, AllocError>
    ensures { IfOk result (λ made. told (option_map plain_declared made) standing.new ≡ pointed_to only_first at name_at constant (plain_declared target.entry) (plain_standing standing.old)) }
{
    match target {
        Declared::Plain(ty) => {
            if ty.is_void() {
                standing.refuse(SubsetCode::BadPointer, at);
                Ok(None)
            } else {
                let form = TypeForm::Pointer(Box::new(alloc, ty)?);
                Ok(Some(Declared::Plain(CType {
                    is_const: constant,
                    form,
                })))
            }
        }
        Declared::OpenArray(_) => {
            standing.refuse(SubsetCode::IncompleteType, name_at);
            Ok(None)
        }
        Declared::Function(_) | Declared::Refused(_) => Ok(None),
    }
}

/// A pointer where its target may be refused; of the qualifiers `const` alone is in the subset.
pub fn pointer_declared<'s>(
    alloc: Global,
    standing: &mut Standing<'s>,
    at: At,
    name_at: At,
    qualifiers: &[Qualifier],
    target: Option<Declared<'s>>,
) -> Result<Option<Declared<'s>>, AllocError>
    ensures { IfOk result (λ made. told (option_map plain_declared made) standing.new ≡ pointer_declared only_first at name_at (map qualifier_of qualifiers.now) (option_map plain_declared target.entry) (plain_standing standing.old)) }
{
    if let Some(place) = other_word(qualifiers) {
        standing.refuse(SubsetCode::BadSpecifier, place);
    }
    match target {
        None => Ok(None),
        Some(target) => pointed_to(
            alloc,
            standing,
            at,
            name_at,
            has_const_word(qualifiers),
            target,
        ),
    }
}

/// An element of an array: it has a size (C99 6.7.5.2p1); an array of functions is refused by its form.
fn element_type<'s>(
    standing: &mut Standing<'s>,
    name_at: At,
    element: Declared<'s>,
) -> Option<CType>
    ensures { told (option_map plain_type result) standing.new ≡ element_type only_first name_at (plain_declared element.entry) (plain_standing standing.old) }
{
    match element {
        Declared::Plain(ty) => {
            if standing.scope.types.is_complete(&ty) {
                Some(ty)
            } else {
                standing.refuse(SubsetCode::IncompleteType, name_at);
                None
            }
        }
        Declared::OpenArray(_) => {
            standing.refuse(SubsetCode::IncompleteType, name_at);
            None
        }
        Declared::Function(_) | Declared::Refused(_) => None,
    }
}

/// An element whose type may be refused.
pub fn element_declared<'s>(
    standing: &mut Standing<'s>,
    name_at: At,
    element: Option<Declared<'s>>,
) -> Option<CType>
    ensures { told (option_map plain_type result) standing.new ≡ element_declared only_first name_at (option_map plain_declared element.entry) (plain_standing standing.old) }
{
    match element {
        None => None,
        Some(element) => element_type(standing, name_at, element),
    }
}
