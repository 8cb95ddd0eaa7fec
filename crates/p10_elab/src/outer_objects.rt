//! Objects that are declared outside of functions (C99 6.9.2).

ghost use Rattle.std.specs.Prelude.{◌≡◌, ◌++◌, ◌∷◌, [], if◌then◌else◌, IfOk, None, Some, map, option_map};
ghost use Rattle.p10_syn.specs.Built.{identifier_of};
ghost use Rattle.p10_syn.specs.BuiltStatements.{initial_of, init_declarator_of};
ghost use Rattle.p10_core.specs.Types.{plain_type};
ghost use Rattle.p10_core.specs.Views.{plain_initializer};
ghost use Rattle.p10_elabx.specs.First.{only_first};
ghost use Rattle.p10_elabd.specs.Views.{plain_declared};
ghost use Rattle.p10_heads.specs.PlainHeads.{plain_heads};
ghost use Rattle.p10_linkage.specs.Linkage.{an_object};
ghost use Rattle.p10_linkage.specs.LinkedViews.{plain_kind};
ghost use Rattle.p10_elab.specs.Outer.{is_extern, object_declared, object_by_type, object_by_form};
ghost use Rattle.p10_elab.specs.OuterViews.{plain_outer_object, plain_tentative};
ghost use Rattle.p10_elab.specs.KnownViews.{plain_known};
ghost use Rattle.p10_elab.specs.private.Defining.{object_with};

use crate::declared_names::{declare_linked, declare_name};
use crate::known::Known;
use crate::linking::{Linking, linked_of};
use crate::outer_object::{OuterObject, Tentative};
use crate::outer_sites::define_object;
use crate::outer_types::{Manner, open_outside, outer_type};
use crate::setting::{Setting, Shared};
use p10_core::{CType, Initializer};
use p10_elabd::{Declared, Lifetime, Storage};
use p10_elabs::{initialized_by, is_written};
use p10_linkage::LinkedKind;
use p10_syn::{Identifier, Init, InitDeclarator};
use std::alloc::{AllocError, Global};

/// Declares an object by what its declarator declares, which may be refused; rows on the form of the declarator are noted first.
pub(crate) fn object_by_form<'s>(
    setting: &Setting<'_, 's>,
    known: &mut Known<'s>,
    shared: Shared,
    name: Identifier<'s>,
    d: &InitDeclarator<'s>,
    declared: Option<Declared<'s>>,
) -> Result<(), AllocError>
    ensures { IfOk result (λ _. plain_known known.new ≡ object_by_form only_first (plain_heads setting.now.heads.now) shared.storage shared.sensor (identifier_of name.entry) (init_declarator_of d.now) (plain_known known.old) (option_map plain_declared declared.entry)) }
{
    let before = known.linked.last(known.root, name.text);
    open_outside(
        setting.alloc,
        &mut known.standing,
        name,
        d,
        before,
        &declared,
    )?;
    object_by_type(setting, known, shared, name, d, declared)
}

/// Declares an object by what its declarator declares, which may be refused.
fn object_by_type<'s>(
    setting: &Setting<'_, 's>,
    known: &mut Known<'s>,
    shared: Shared,
    name: Identifier<'s>,
    d: &InitDeclarator<'s>,
    declared: Option<Declared<'s>>,
) -> Result<(), AllocError>
    ensures { IfOk result (λ _. plain_known known.new ≡ object_by_type only_first (plain_heads setting.now.heads.now) shared.storage shared.sensor (identifier_of name.entry) (init_declarator_of d.now) (plain_known known.old) (option_map plain_declared declared.entry)) }
{
    match declared {
        None => unknown_object(setting, known, shared, name, d),
        Some(declared) => object_outside(setting, known, shared, name, d, declared),
    }
}

/// Declares an object of which no more is known.
fn unknown_object<'s>(
    setting: &Setting<'_, 's>,
    known: &mut Known<'s>,
    shared: Shared,
    name: Identifier<'s>,
    d: &InitDeclarator<'s>,
) -> Result<(), AllocError>
    ensures { IfOk result (λ _. plain_known known.new ≡ object_by_type only_first (plain_heads setting.now.heads.now) shared.storage shared.sensor (identifier_of name.entry) (init_declarator_of d.now) (plain_known known.old) None) }
{
    let says = Linking {
        storage: shared.storage,
        defines: is_written(&d.init),
        sensor: shared.sensor,
    };
    declare_name(setting, known, name, LinkedKind::UnknownObject, says)
}

/// Declares an object by what its declarator declares; its type may be refused.
fn object_outside<'s>(
    setting: &Setting<'_, 's>,
    known: &mut Known<'s>,
    shared: Shared,
    name: Identifier<'s>,
    d: &InitDeclarator<'s>,
    declared: Declared<'s>,
) -> Result<(), AllocError>
    ensures { IfOk result (λ _. plain_known known.new ≡ object_by_type only_first (plain_heads setting.now.heads.now) shared.storage shared.sensor (identifier_of name.entry) (init_declarator_of d.now) (plain_known known.old) (Some (plain_declared declared.entry))) }
{
    let manner = Manner {
        storage: shared.storage,
        name,
        before: known.linked.last(known.root, name.text),
    };
    let ty = outer_type(setting.alloc, &mut known.standing, manner, d, declared)?;
    match ty {
        None => unknown_object(setting, known, shared, name, d),
        Some(ty) => object_declared(setting, known, shared, name, ty, &d.init),
    }
}

/// Declares an object of a type, in scope in its own initialiser.
fn object_declared<'s>(
    setting: &Setting<'_, 's>,
    known: &mut Known<'s>,
    shared: Shared,
    name: Identifier<'s>,
    ty: CType,
    initial: &Option<Init<'s>>,
) -> Result<(), AllocError>
    ensures { IfOk result (λ _. plain_known known.new ≡ object_declared only_first (plain_heads setting.now.heads.now) (identifier_of name.entry) (plain_type ty) shared.storage shared.sensor (initial_of initial.now) (plain_known known.old)) }
{
    let written = is_written(initial);
    let says = Linking {
        storage: shared.storage,
        defines: written,
        sensor: shared.sensor,
    };
    let kind = object_kind(setting.alloc, &ty)?;
    let linked = linked_of(&known.linked, known.root, name, kind, says);
    let number = setting
        .heads
        .object_number(linked.root, linked.internal, linked.name);
    declare_linked(setting, known, linked)?;
    let settled = written | is_extern(shared.storage);
    note_tentative(setting.alloc, &mut known.tentative, settled, name, &ty)?;
    let made = initialized_by(
        setting.alloc,
        &mut known.standing,
        Lifetime::Static,
        &ty,
        initial,
    )?;
    let object = object_of(number, name, ty, shared.sensor, made);
    define_object(setting.heads, &mut known.objects, object)?;
    Ok(())
}

/// Whether storage is `extern`.
fn is_extern(storage: Storage) -> bool
    ensures { result ≡ is_extern storage }
{
    storage == Storage::Extern
}

/// Puts a tentative definition after others; a declaration that is settled is none.
fn note_tentative<'s>(
    alloc: Global,
    all: &mut Vec<Tentative<'s>>,
    settled: bool,
    name: Identifier<'s>,
    ty: &CType,
) -> Result<(), AllocError>
    ensures { IfOk result (λ _. map plain_tentative all.new.items ≡ (if settled then map plain_tentative all.old.items else map plain_tentative all.old.items ++ record { name = identifier_of name.entry; type = plain_type ty.now } ∷ [])) }
{
    if settled {
        return Ok(());
    }
    let ty = ty.copy(alloc)?;
    all.push(Tentative { name, ty })?;
    Ok(())
}

/// An object with linkage, of a type.
fn object_kind(alloc: Global, ty: &CType) -> Result<LinkedKind, AllocError>
    ensures { IfOk result (λ kind. plain_kind kind ≡ an_object (plain_type ty.now)) }
{
    Ok(LinkedKind::Object(ty.copy(alloc)?))
}

/// An object with its initialiser, unless that is refused.
fn object_of<'s>(
    number: u32,
    name: Identifier<'s>,
    ty: CType,
    sensor: bool,
    initializer: Option<Initializer>,
) -> Option<OuterObject<'s>>
    ensures { option_map plain_outer_object result ≡ option_map (object_with number (identifier_of name.entry) (plain_type ty) sensor) (option_map plain_initializer initializer) }
{
    match initializer {
        None => None,
        Some(initializer) => Some(OuterObject {
            number,
            name,
            ty,
            initializer,
            sensor,
        }),
    }
}
