//! What a declaration adds where it stands, in blocks and outside of functions (C99 6.7).

ghost use Rattle.std.specs.Prelude.{◌≡◌, IfOk, option_map};
ghost use Rattle.p10_core.specs.Sizes.{size_of};
ghost use Rattle.p10_core.specs.Types.{plain_type};
ghost use Rattle.p10_core.specs.Views.{plain_types, plain_initializer};
ghost use Rattle.p10_syn.specs.Built.{identifier_of, declarator_of};
ghost use Rattle.p10_syn.specs.BuiltStatements.{initial_of, initializer_of, init_declarator_of, declaration_of};
ghost use Rattle.p10_elabx.specs.First.{only_first};
ghost use Rattle.p10_elabd.specs.Initializers.{elements_given};
ghost use Rattle.p10_elabd.specs.Views.{plain_standing, plain_declared, told};
ghost use Rattle.p10_elabs.specs.Locals.{specified_in, no_initializer, unknown_in, typedef_of, typedef_passed, counted_array, without_size, awaiting, awaited, measured, filled_array, is_written, open_noted, object_type, initialized_by};
ghost use Rattle.p10_elabs.specs.LocalDeclarations.{declared_object, object_in_block};

use crate::specifiers::{allowed_by, brackets_of, declares_sensors, is_alone, volatile_noted};
use p10_base::{At, SubsetCode};
use p10_core::{CType, Initializer, Types};
use p10_elabd::{
    Declared, Lifetime, Site, Standing, declares_function, declares_open_array, elements_given,
    initialized, specified, surplus_item,
};
use p10_elabx::{Named, declarator_place, known_size};
use p10_syn::{Decl, Declarator, Identifier, Init, InitDeclarator};
use std::alloc::{AllocError, Global};

/// The type that the specifiers of the declaration `d` name at a site, where they name one; `outside` says that it stands outside of
/// functions. `None` where it is refused, and a row that holds is noted.
///
/// # Errors
///
/// Out of memory.
pub fn specified_in<'s>(
    alloc: Global,
    standing: &mut Standing<'s>,
    outside: bool,
    site: Site,
    d: &Decl<'s>,
) -> Result<Option<CType>, AllocError>
    ensures { IfOk result (λ made. told (option_map plain_type made) standing.new ≡ specified_in only_first outside site (plain_standing standing.old) (declaration_of d.now)) }
{
    let ty = specified(alloc, standing, site, allowed_by(d), is_alone(d), &d.specs)?;
    let may = declares_sensors(outside, ty.as_ref(), d);
    volatile_noted(may, &d.specs, standing);
    Ok(ty)
}

/// Notes an initialiser where none may stand.
pub fn no_initializer<'s>(
    alloc: Global,
    standing: &mut Standing<'s>,
    initial: &Option<Init<'s>>,
) -> Result<(), AllocError>
    ensures { IfOk result (λ _. plain_standing standing.new ≡ no_initializer only_first (initial_of initial.now) (plain_standing standing.old)) }
{
    match initial {
        None => Ok(()),
        Some(i) => {
            surplus_item(alloc, standing, i)?;
            Ok(())
        }
    }
}

/// Lets a name stand for something unknown, since its declaration is refused.
pub fn unknown_in<'s>(standing: &mut Standing<'s>, name: Identifier<'s>) -> Result<(), AllocError>
    ensures { IfOk result (λ _. plain_standing standing.new ≡ unknown_in only_first (identifier_of name.entry) (plain_standing standing.old)) }
{
    standing.declare(name, Named::Unknown)?;
    Ok(())
}

/// Declares a typedef (C99 6.7.7): of a function, or of an array without a length, it isn't in the subset, which are rows on the form.
pub fn typedef_passed<'s>(
    standing: &mut Standing<'s>,
    name: Identifier<'s>,
    d: &Declarator<'s>,
    declared: Option<Declared<'s>>,
) -> Result<(), AllocError>
    ensures { IfOk result (λ _. plain_standing standing.new ≡ typedef_passed only_first (identifier_of name.entry) (declarator_of d.now) (option_map plain_declared declared.entry) (plain_standing standing.old)) }
{
    let place = declarator_place(d);
    standing.refuse_where(declares_function(d), SubsetCode::BadSpecifier, place);
    standing.refuse_where(declares_open_array(d), SubsetCode::IncompleteType, name.at);
    typedef_of(standing, name, declared)
}

/// Declares a typedef by what is declared.
fn typedef_of<'s>(
    standing: &mut Standing<'s>,
    name: Identifier<'s>,
    declared: Option<Declared<'s>>,
) -> Result<(), AllocError>
    ensures { IfOk result (λ _. plain_standing standing.new ≡ typedef_of only_first (identifier_of name.entry) (option_map plain_declared declared.entry) (plain_standing standing.old)) }
{
    match declared {
        None => {
            unknown_in(standing, name)?;
            Ok(())
        }
        Some(Declared::Plain(ty)) => {
            standing.declare(name, Named::Typedef(ty))?;
            Ok(())
        }
        Some(Declared::OpenArray(_)) => {
            unknown_in(standing, name)?;
            Ok(())
        }
        Some(Declared::Function(_)) => {
            unknown_in(standing, name)?;
            Ok(())
        }
        Some(Declared::Refused(_)) => {
            unknown_in(standing, name)?;
            Ok(())
        }
    }
}

/// The size of a type in bytes (C99 6.5.3.4). One that isn't known, or is more than a type may have, is answered as out of memory.
pub fn bytes_of(types: &Types<'_>, ty: &CType) -> Result<u64, AllocError>
    ensures { IfOk result (λ n. n ≡ size_of (plain_types types.now) (plain_type ty.now)) }
{
    types.are_whole();
    match known_size(types, ty) {
        Some(bytes) => Ok(bytes),
        None => Err(AllocError),
    }
}

/// An array of `count` elements; one that is too large is refused at its brackets.
fn counted_array(
    alloc: Global,
    standing: &mut Standing<'_>,
    brackets: At,
    element: CType,
    count: u64,
) -> Result<Option<CType>, AllocError>
    ensures { IfOk result (λ made. told (option_map plain_type made) standing.new ≡ counted_array only_first brackets (plain_type element) count (plain_standing standing.old)) }
{
    standing.scope.types.are_whole();
    let size = known_size(&standing.scope.types, &element);
    let known = size.is_some();
    if !known {
        return Err(AllocError);
    }
    let array = CType::array(alloc, element, count)?;
    match known_size(&standing.scope.types, &array) {
        Some(_) => Ok(Some(array)),
        None => {
            standing.refuse(SubsetCode::BadLength, brackets);
            Ok(None)
        }
    }
}

/// An array that is larger than any type may be, in place of one without a length: like that, it has no size.
fn without_size(alloc: Global, element: &CType) -> Result<CType, AllocError>
    ensures { IfOk result (λ t. plain_type t ≡ without_size (plain_type element.now)) }
{
    let element = element.copy(alloc)?;
    let array = CType::array(alloc, element, 1_099_511_627_777)?;
    Ok(array)
}

/// Opens a block round the name of an array without a length, up to the end of its initialiser.
fn awaiting<'s>(
    alloc: Global,
    standing: &mut Standing<'s>,
    name: Identifier<'s>,
    element: &CType,
) -> Result<(), AllocError>
    ensures { IfOk result (λ _. plain_standing standing.new ≡ awaiting (identifier_of name.entry) (plain_type element.now) (plain_standing standing.old)) }
{
    let ty = without_size(alloc, element)?;
    standing.scope.enter()?;
    let what = Named::Var {
        number: 0,
        ty,
        frame: false,
    };
    standing.set_name(name.text, what)?;
    Ok(())
}

/// Notes the rows that hold in the initialiser of an array without a length, since the array has none before its end (C99 6.7.8p22).
fn awaited<'s>(
    alloc: Global,
    standing: &mut Standing<'s>,
    name: Identifier<'s>,
    element: &CType,
    whole: &CType,
    i: &Init<'s>,
) -> Result<(), AllocError>
    ensures { IfOk result (λ _. plain_standing standing.new ≡ awaited only_first (identifier_of name.entry) (plain_type element.now) (plain_type whole.now) (initializer_of i.now) (plain_standing standing.old)) }
{
    awaiting(alloc, standing, name, element)?;
    initialized(alloc, standing, Lifetime::Automatic, whole, i)?;
    standing.scope.leave();
    Ok(())
}

/// An array that gets its length from an initialiser, unless it is too large.
fn measured<'s>(
    alloc: Global,
    standing: &mut Standing<'s>,
    name: Identifier<'s>,
    element: &CType,
    i: &Init<'s>,
    whole: Option<CType>,
) -> Result<Option<CType>, AllocError>
    ensures { IfOk result (λ made. told (option_map plain_type made) standing.new ≡ measured only_first (identifier_of name.entry) (plain_type element.now) (initializer_of i.now) (option_map plain_type whole) (plain_standing standing.old)) }
{
    match whole {
        None => Ok(None),
        Some(whole) => {
            awaited(alloc, standing, name, element, &whole, i)?;
            Ok(Some(whole))
        }
    }
}

/// An array of as many elements as an initialiser gives (C99 6.7.8p22); one that is too large is refused at its brackets.
pub fn filled_array<'s>(
    alloc: Global,
    standing: &mut Standing<'s>,
    name: Identifier<'s>,
    brackets: At,
    element: CType,
    i: &Init<'s>,
) -> Result<Option<CType>, AllocError>
    ensures { IfOk result (λ made. told (option_map plain_type made) standing.new ≡ filled_array only_first (identifier_of name.entry) brackets (plain_type element) (initializer_of i.now) (elements_given (plain_type element) (initializer_of i.now)) (plain_standing standing.old)) }
{
    let given = elements_given(alloc, &element, i)?;
    match given {
        None => {
            surplus_item(alloc, standing, i)?;
            Ok(None)
        }
        Some(count) => {
            let kept = element.copy(alloc)?;
            let whole = counted_array(alloc, standing, brackets, kept, count)?;
            let made = measured(alloc, standing, name, &element, i, whole)?;
            Ok(made)
        }
    }
}

/// Whether an initialiser is written.
pub fn is_written(initial: &Option<Init<'_>>) -> bool
    ensures { result ≡ is_written (initial_of initial.now) }
{
    match initial {
        None => false,
        Some(_) => true,
    }
}

/// The type of an object: it has a size; the length of an array may come from its initialiser (C99 6.7p7, 6.7.8p22). `name_at` and
/// `brackets` say where its name and its brackets stand. `None` where it is refused, and a row that holds is noted.
///
/// # Errors
///
/// Out of memory.
pub fn object_type<'s>(
    alloc: Global,
    standing: &mut Standing<'s>,
    name: Identifier<'s>,
    brackets: At,
    declared: Declared<'s>,
    initial: &Option<Init<'s>>,
) -> Result<Option<CType>, AllocError>
    ensures { IfOk result (λ made. told (option_map plain_type made) standing.new ≡ object_type only_first (identifier_of name.entry) brackets (plain_declared declared.entry) (initial_of initial.now) (plain_standing standing.old)) }
{
    match declared {
        Declared::Plain(ty) => {
            if standing.scope.types.is_complete(&ty) {
                Ok(Some(ty))
            } else {
                standing.refuse(SubsetCode::IncompleteType, name.at);
                Ok(None)
            }
        }
        Declared::OpenArray(element) => match initial {
            None => Ok(None),
            Some(i) => {
                let made = filled_array(alloc, standing, name, brackets, element, i)?;
                Ok(made)
            }
        },
        Declared::Function(_) | Declared::Refused(_) => Ok(None),
    }
}

/// The type of an object that may be refused.
fn declared_object<'s>(
    alloc: Global,
    standing: &mut Standing<'s>,
    name: Identifier<'s>,
    brackets: At,
    declared: Option<Declared<'s>>,
    initial: &Option<Init<'s>>,
) -> Result<Option<CType>, AllocError>
    ensures { IfOk result (λ made. told (option_map plain_type made) standing.new ≡ declared_object only_first (identifier_of name.entry) brackets (option_map plain_declared declared.entry) (initial_of initial.now) (plain_standing standing.old)) }
{
    match declared {
        None => Ok(None),
        Some(declared) => {
            let made = object_type(alloc, standing, name, brackets, declared, initial)?;
            Ok(made)
        }
    }
}

/// Notes an object that is an array without a length, and gets none from an initialiser (C99 6.7p7).
pub fn open_noted<'s>(standing: &mut Standing<'s>, name: Identifier<'s>, d: &InitDeclarator<'s>)
    ensures { plain_standing standing.new ≡ open_noted only_first name.entry.at (declarator_of d.now.declarator) (initial_of d.now.init) (plain_standing standing.old) }
{
    let lacking = declares_open_array(&d.declarator) && !is_written(&d.init);
    standing.refuse_where(lacking, SubsetCode::IncompleteType, name.at);
}

/// The type of an object in a block, which may be refused.
pub(crate) fn object_in_block<'s>(
    alloc: Global,
    standing: &mut Standing<'s>,
    name: Identifier<'s>,
    d: &InitDeclarator<'s>,
    declared: Option<Declared<'s>>,
) -> Result<Option<CType>, AllocError>
    ensures { IfOk result (λ made. told (option_map plain_type made) standing.new ≡ object_in_block only_first (identifier_of name.entry) (init_declarator_of d.now) (option_map plain_declared declared.entry) (plain_standing standing.old)) }
{
    open_noted(standing, name, d);
    let brackets = brackets_of(&d.declarator);
    declared_object(alloc, standing, name, brackets, declared, &d.init)
}

/// What an object of the type `ty` and the lifetime `life` is initialised with, if an initialiser is written (C99 6.7.8). `None` where it
/// is refused, and a row that holds is noted.
///
/// # Errors
///
/// Out of memory.
pub fn initialized_by<'s>(
    alloc: Global,
    standing: &mut Standing<'s>,
    life: Lifetime,
    ty: &CType,
    initial: &Option<Init<'s>>,
) -> Result<Option<Initializer>, AllocError>
    ensures { IfOk result (λ made. told (option_map plain_initializer made) standing.new ≡ initialized_by only_first life (plain_type ty.now) (initial_of initial.now) (plain_standing standing.old)) }
{
    match initial {
        None => Ok(Some(Initializer::Absent)),
        Some(i) => {
            let made = initialized(alloc, standing, life, ty, i)?;
            Ok(made)
        }
    }
}
