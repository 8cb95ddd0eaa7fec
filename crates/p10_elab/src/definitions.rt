//! Functions with their bodies (C99 6.9.1).

ghost use Rattle.std.specs.Prelude.{◌≡◌, IfOk, Some, map, option_map};
ghost use Rattle.p10_base.specs.declared.at.At.{At};
ghost use Rattle.p10_syn.specs.Trees.{Definition, statement_row};
ghost use Rattle.p10_syn.specs.Built.{identifier_of};
ghost use Rattle.p10_syn.specs.BuiltStatements.{statement_of, definition_of};
ghost use Rattle.p10_core.specs.Types.{plain_type};
ghost use Rattle.p10_elabx.specs.First.{only_first};
ghost use Rattle.p10_elabd.specs.Shapes.{of_function, of_part_function, name_in};
ghost use Rattle.p10_elabd.specs.Views.{plain_function, plain_part_function, plain_declared};
ghost use Rattle.p10_heads.specs.PlainHeads.{plain_heads};
ghost use Rattle.p10_elab.specs.Outer.{bodyless, function_by_type, allowed_at_definition, function_named, defined_outside};
ghost use Rattle.p10_elab.specs.KnownViews.{plain_known};

use crate::bodies::{BodyHead, body_done};
use crate::declared_names::{declare_linked, declare_name};
use crate::known::{Known, number_of};
use crate::linking::{Linking, linked_of};
use crate::mains::{note_constants, note_main};
use crate::prototypes::{function_kind, refused_kind};
use crate::root_end::note_listed_names;
use crate::setting::Setting;
use p10_base::SubsetCode;
use p10_core::CType;
use p10_elabd::{
    Allowed, Declared, DeclaredFunction, RefusedFunction, Site, Storage, based, declarator_passed,
    has_parameters, name_in, specified, storage_of,
};
use p10_elabs::unknown_in;
use p10_elabx::declarator_place;
use p10_heads::is_static;
use p10_syn::{Function, Identifier};
use std::alloc::AllocError;

/// Goes over a function with its body.
pub(crate) fn defined_outside<'s>(
    setting: &Setting<'_, 's>,
    known: &mut Known<'s>,
    f: &Function<'s>,
) -> Result<(), AllocError>
    ensures { IfOk result (λ _. plain_known known.new ≡ defined_outside only_first (plain_heads setting.now.heads.now) (plain_known known.old) (definition_of f.now)) }
{
    let ty = specified(
        setting.alloc,
        &mut known.standing,
        Site::OfDefinition,
        allowed_at_definition(f),
        false,
        &f.specs,
    )?;
    note_constants(setting.alloc, &mut known.mains, &f.specs)?;
    function_named(setting, known, f, ty)?;
    Ok(())
}

/// What a function's declarator allows among its specifiers.
fn allowed_at_definition(f: &Function<'_>) -> Allowed
    ensures { result ≡ allowed_at_definition (definition_of f.now) }
{
    Allowed {
        inline: is_static(storage_of(&f.specs)),
        volatile: false,
    }
}

/// Goes over a function; without a name it defines nothing.
fn function_named<'s>(
    setting: &Setting<'_, 's>,
    known: &mut Known<'s>,
    f: &Function<'s>,
    ty: Option<CType>,
) -> Result<(), AllocError>
    ensures { IfOk result (λ _. plain_known known.new ≡ function_named only_first (plain_heads setting.now.heads.now) (definition_of f.now) (plain_known known.old) (option_map plain_type ty) (name_in (definition_of f.now).declarator)) }
{
    match name_in(&f.declarator) {
        None => Ok(()),
        Some(name) => {
            define_name(setting, known, f, ty, name)?;
            Ok(())
        }
    }
}

/// Goes over a function with its name.
fn define_name<'s>(
    setting: &Setting<'_, 's>,
    known: &mut Known<'s>,
    f: &Function<'s>,
    ty: Option<CType>,
    name: Identifier<'s>,
) -> Result<(), AllocError>
    ensures { IfOk result (λ _. plain_known known.new ≡ function_named only_first (plain_heads setting.now.heads.now) (definition_of f.now) (plain_known known.old) (option_map plain_type ty) (Some (identifier_of name.entry))) }
{
    let declared = declarator_passed(
        setting.alloc,
        &mut known.standing,
        name.at,
        based(ty),
        &f.declarator,
    )?;
    function_by_type(setting, known, storage_of(&f.specs), name, f, declared)?;
    Ok(())
}

/// Defines a function by what its declarator declares: without parameters it declares no function.
fn function_by_type<'s>(
    setting: &Setting<'_, 's>,
    known: &mut Known<'s>,
    storage: Storage,
    name: Identifier<'s>,
    f: &Function<'s>,
    declared: Option<Declared<'s>>,
) -> Result<(), AllocError>
    ensures { IfOk result (λ _. plain_known known.new ≡ function_by_type only_first (plain_heads setting.now.heads.now) storage (definition_of f.now) (identifier_of name.entry) (plain_known known.old) (option_map plain_declared declared.entry)) }
{
    match declared {
        Some(Declared::Function(function)) => {
            function_defined(setting, known, storage, name, f, function)?;
            Ok(())
        }
        Some(Declared::Refused(function)) => {
            refused_defined(setting, known, storage, name, function)?;
            Ok(())
        }
        Some(Declared::Plain(_)) => {
            refuse_body(known, name, f)?;
            Ok(())
        }
        Some(Declared::OpenArray(_)) => {
            refuse_body(known, name, f)?;
            Ok(())
        }
        None => {
            refuse_body(known, name, f)?;
            Ok(())
        }
    }
}

/// Declares a function with a body of which a part is refused: the body isn't gone over.
fn refused_defined<'s>(
    setting: &Setting<'_, 's>,
    known: &mut Known<'s>,
    storage: Storage,
    name: Identifier<'s>,
    function: RefusedFunction<'s>,
) -> Result<(), AllocError>
    ensures { IfOk result (λ _. (d : Definition At) → plain_known known.new ≡ function_by_type only_first (plain_heads setting.now.heads.now) storage d (identifier_of name.entry) (plain_known known.old) (Some (of_part_function (plain_part_function function.entry)))) }
{
    note_listed_names(&function.parameters, &mut known.standing);
    let says = Linking {
        storage,
        defines: true,
        sensor: false,
    };
    let kind = refused_kind(setting.alloc, &function)?;
    declare_name(setting, known, name, kind, says)
}

/// Goes over a body after a declarator that declares no function: one without parameters is refused.
fn refuse_body<'s>(
    known: &mut Known<'s>,
    name: Identifier<'s>,
    f: &Function<'s>,
) -> Result<(), AllocError>
    ensures { IfOk result (λ _. plain_known known.new ≡ bodyless only_first (definition_of f.now) (identifier_of name.entry) (plain_known known.old)) }
{
    let at = declarator_place(&f.declarator);
    let bare = !has_parameters(&f.declarator);
    known
        .standing
        .refuse_where(bare, SubsetCode::NoPrototype, at);
    unknown_in(&mut known.standing, name)?;
    note_main(&mut known.mains, &name)?;
    Ok(())
}

/// Defines a function: it is declared, and then its body is gone over.
fn function_defined<'s>(
    setting: &Setting<'_, 's>,
    known: &mut Known<'s>,
    storage: Storage,
    name: Identifier<'s>,
    f: &Function<'s>,
    function: DeclaredFunction<'s>,
) -> Result<(), AllocError>
    ensures { IfOk result (λ _. plain_known known.new ≡ function_by_type only_first (plain_heads setting.now.heads.now) storage (definition_of f.now) (identifier_of name.entry) (plain_known known.old) (Some (of_function (plain_function function.entry)))) }
{
    let says = Linking {
        storage,
        defines: true,
        sensor: false,
    };
    let kind = function_kind(setting.alloc, &function)?;
    let linked = linked_of(&known.linked, known.root, name, kind, says);
    let internal = linked.internal;
    let number = setting
        .heads
        .function_number(linked.root, internal, linked.name);
    declare_linked(setting, known, linked)?;
    let parameters = number_of(function.parameters.len())?;
    let result = function.result.copy(setting.alloc)?;
    let head = BodyHead {
        name,
        number,
        internal,
        parameters,
        result,
    };
    body_done(setting, known, head, function, &f.body)?;
    Ok(())
}
