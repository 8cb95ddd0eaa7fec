//! Declarations outside of functions (C99 6.9).

ghost use Rattle.std.specs.Prelude.{◌≡◌, Some, IfOk, map, option_map};
ghost use Rattle.p10_syn.specs.Built.{identifier_of};
ghost use Rattle.p10_syn.specs.BuiltStatements.{init_declarator_of, declaration_of};
ghost use Rattle.p10_core.specs.Types.{plain_type};
ghost use Rattle.p10_elabx.specs.First.{only_first};
ghost use Rattle.p10_elabd.specs.Shapes.{name_in};
ghost use Rattle.p10_elabd.specs.Views.{plain_declared};
ghost use Rattle.p10_heads.specs.PlainHeads.{plain_heads};
ghost use Rattle.p10_elabs.specs.Locals.{no_initializer, typedef_passed};
ghost use Rattle.p10_elab.specs.Knowledge.{without_linkage};
ghost use Rattle.p10_elab.specs.Outer.{by_type_outside, outer_named, outer_declarators, declared_outside};
ghost use Rattle.p10_elab.specs.KnownViews.{plain_known};

use crate::known::Known;
use crate::mains::{note_constants, note_main};
use crate::outer_objects::object_by_form;
use crate::prototypes::{function_kind, prototype_declared, refused_kind};
use crate::setting::{Setting, Shared};
use p10_core::CType;
use p10_elabd::{Declared, Site, based_on, declarator_passed, name_in, storage_of};
use p10_elabs::{is_typedef, makes_sensors, no_initializer, specified_in, typedef_passed};
use p10_syn::{Decl, Identifier, InitDeclarator};
use std::alloc::AllocError;

/// Goes over a declaration.
pub(crate) fn declared_outside<'s>(
    setting: &Setting<'_, 's>,
    known: &mut Known<'s>,
    d: &Decl<'s>,
) -> Result<(), AllocError>
    ensures { IfOk result (λ _. plain_known known.new ≡ declared_outside only_first (plain_heads setting.now.heads.now) (plain_known known.old) (declaration_of d.now)) }
{
    let ty = specified_in(setting.alloc, &mut known.standing, true, Site::Outside, d)?;
    note_constants(setting.alloc, &mut known.mains, &d.specs)?;
    let shared = Shared {
        storage: storage_of(&d.specs),
        sensor: makes_sensors(d),
    };
    outer_declarators(setting, known, shared, &ty, &d.declarators)?;
    Ok(())
}

/// Goes over declarators, one after the other.
fn outer_declarators<'s>(
    setting: &Setting<'_, 's>,
    known: &mut Known<'s>,
    shared: Shared,
    ty: &Option<CType>,
    all: &[InitDeclarator<'s>],
) -> Result<(), AllocError>
    ensures { IfOk result (λ _. plain_known known.new ≡ outer_declarators only_first (plain_heads setting.now.heads.now) shared.storage shared.sensor (option_map plain_type ty.now) (plain_known known.old) (map init_declarator_of all.now)) }
{
    for d in all {
        outer_named(setting, known, shared, ty, d)?;
    }
    Ok(())
}

/// Goes over a declarator; without a name it declares nothing.
fn outer_named<'s>(
    setting: &Setting<'_, 's>,
    known: &mut Known<'s>,
    shared: Shared,
    ty: &Option<CType>,
    d: &InitDeclarator<'s>,
) -> Result<(), AllocError>
    ensures { IfOk result (λ _. plain_known known.new ≡ outer_named only_first (plain_heads setting.now.heads.now) shared.storage shared.sensor (option_map plain_type ty.now) (plain_known known.old) (init_declarator_of d.now) (name_in (init_declarator_of d.now).declarator)) }
{
    match name_in(&d.declarator) {
        None => Ok(()),
        Some(name) => {
            name_declared(setting, known, shared, name, ty, d)?;
            Ok(())
        }
    }
}

/// Goes over a declarator with its name.
fn name_declared<'s>(
    setting: &Setting<'_, 's>,
    known: &mut Known<'s>,
    shared: Shared,
    name: Identifier<'s>,
    ty: &Option<CType>,
    d: &InitDeclarator<'s>,
) -> Result<(), AllocError>
    ensures { IfOk result (λ _. plain_known known.new ≡ outer_named only_first (plain_heads setting.now.heads.now) shared.storage shared.sensor (option_map plain_type ty.now) (plain_known known.old) (init_declarator_of d.now) (Some (identifier_of name.entry))) }
{
    let base = based_on(setting.alloc, ty)?;
    let declared = declarator_passed(
        setting.alloc,
        &mut known.standing,
        name.at,
        base,
        &d.declarator,
    )?;
    if is_typedef(shared.storage) {
        typedef_outside(setting, known, name, d, declared)?;
        Ok(())
    } else {
        by_type_outside(setting, known, shared, name, d, declared)?;
        Ok(())
    }
}

/// Declares a typedef, which has no linkage.
fn typedef_outside<'s>(
    setting: &Setting<'_, 's>,
    known: &mut Known<'s>,
    name: Identifier<'s>,
    d: &InitDeclarator<'s>,
    declared: Option<Declared<'s>>,
) -> Result<(), AllocError>
    ensures { IfOk result (λ _. plain_known known.new ≡ without_linkage (identifier_of name.entry) (no_initializer only_first (init_declarator_of d.now).initial (typedef_passed only_first (identifier_of name.entry) (init_declarator_of d.now).declarator (option_map plain_declared declared.entry) (plain_known known.old).standing)) (plain_known known.old)) }
{
    typedef_passed(&mut known.standing, name, &d.declarator, declared)?;
    no_initializer(setting.alloc, &mut known.standing, &d.init)?;
    note_main(&mut known.mains, &name)?;
    Ok(())
}

/// Declares a function or an object by what its declarator declares, which may be refused.
fn by_type_outside<'s>(
    setting: &Setting<'_, 's>,
    known: &mut Known<'s>,
    shared: Shared,
    name: Identifier<'s>,
    d: &InitDeclarator<'s>,
    declared: Option<Declared<'s>>,
) -> Result<(), AllocError>
    ensures { IfOk result (λ _. plain_known known.new ≡ by_type_outside only_first (plain_heads setting.now.heads.now) shared.storage shared.sensor (identifier_of name.entry) (init_declarator_of d.now) (plain_known known.old) (option_map plain_declared declared.entry)) }
{
    match declared {
        Some(Declared::Function(function)) => {
            let kind = function_kind(setting.alloc, &function)?;
            prototype_declared(setting, known, shared.storage, name, kind, &d.init)?;
            Ok(())
        }
        Some(Declared::Refused(function)) => {
            let kind = refused_kind(setting.alloc, &function)?;
            prototype_declared(setting, known, shared.storage, name, kind, &d.init)?;
            Ok(())
        }
        other => {
            object_by_form(setting, known, shared, name, d, other)?;
            Ok(())
        }
    }
}
