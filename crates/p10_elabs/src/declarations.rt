//! Declarations in blocks (C99 6.7, 6.8.2).

ghost use Rattle.std.specs.Prelude.{◌≡◌, IfOk, Some, map, option_map};
ghost use Rattle.p10_core.specs.Types.{plain_type};
ghost use Rattle.p10_syn.specs.Built.{identifier_of, declarator_of};
ghost use Rattle.p10_syn.specs.BuiltStatements.{init_declarator_of, declaration_of};
ghost use Rattle.p10_elabx.specs.First.{only_first};
ghost use Rattle.p10_elabd.specs.Shapes.{name_in};
ghost use Rattle.p10_elabd.specs.Words.{storage_of};
ghost use Rattle.p10_elabd.specs.Views.{plain_declared};
ghost use Rattle.p10_elabs.specs.FrameViews.{plain_frame};
ghost use Rattle.p10_elabs.specs.Locals.{Local as PlainLocal, makes_sensors};
ghost use Rattle.p10_elabs.specs.LocalDeclarations.{no_items, is_prototype, prototype_passed, typedef_done, by_storage, local_named, declared_locally};
ghost use Rattle.p10_elabs.specs.LocalViews.{plain_local};
ghost use Rattle.p10_elabs.specs.Statements.{with_items, with_declared};
ghost use Rattle.p10_elabs.specs.private.Declarators.{items_as, declarators_added};
ghost use Rattle.p10_elabs.specs.ItemViews.{plain_block};
ghost use Rattle.p10_elabs.specs.declared.local.Local.{Local as CodeLocal};

use crate::frame::Frame;
use crate::items::{Items, with_item, with_kind};
use crate::kind::Kind;
use crate::local::Local;
use crate::locals::{no_initializer, object_in_block, specified_in, typedef_passed, unknown_in};
use crate::specifiers::{is_typedef, makes_sensors};
use crate::variables::{Manner, object_where, variable_where};
use p10_base::SubsetCode;
use p10_core::{CType, Stmt};
use p10_elabd::{
    Declared, Site, Storage, based_on, declarator_passed, declares_function, name_in, storage_of,
};
use p10_elabx::declarator_place;
use p10_syn::{Decl, Declarator, Identifier, InitDeclarator};
use std::alloc::AllocError;

/// A prototype stands in no block.
fn prototype_passed<'s>(
    frame: &Frame<'_, 's>,
    local: &mut Local<'s>,
    name: Identifier<'s>,
    d: &InitDeclarator<'s>,
) -> Result<(), AllocError>
    ensures { IfOk result (λ _. no_items (plain_local local.new) ≡ prototype_passed only_first (identifier_of name.entry) (init_declarator_of d.now) (plain_local local.old)) }
{
    let place = declarator_place(&d.declarator);
    local.standing.refuse(SubsetCode::BadSpecifier, place);
    unknown_in(&mut local.standing, name)?;
    no_initializer(frame.alloc, &mut local.standing, &d.init)?;
    Ok(())
}

/// A typedef in a block.
fn typedef_done<'s>(
    frame: &Frame<'_, 's>,
    local: &mut Local<'s>,
    name: Identifier<'s>,
    d: &InitDeclarator<'s>,
    declared: Option<Declared<'s>>,
) -> Result<(), AllocError>
    ensures { IfOk result (λ _. plain_local local.new ≡ typedef_done only_first (identifier_of name.entry) (init_declarator_of d.now) (option_map plain_declared declared.entry) (plain_local local.old)) }
{
    typedef_passed(&mut local.standing, name, &d.declarator, declared)?;
    no_initializer(frame.alloc, &mut local.standing, &d.init)?;
    Ok(())
}

/// What a declarator declares that has a name, by its storage: a typedef, a static object, a variable. What `extern` declares was
/// refused with that word.
fn by_storage<'s>(
    frame: &Frame<'_, 's>,
    local: &mut Local<'s>,
    manner: Manner,
    name: Identifier<'s>,
    d: &InitDeclarator<'s>,
    declared: Option<Declared<'s>>,
) -> Result<Option<Option<Stmt>>, AllocError>
    ensures { IfOk result (λ items. items_as items local.new ≡ by_storage only_first (plain_frame frame.now) manner.at manner.storage manner.sensor (identifier_of name.entry) (init_declarator_of d.now) (plain_local local.old) (option_map plain_declared declared.entry)) }
{
    match manner.storage {
        Storage::Typedef => {
            typedef_done(frame, local, name, d, declared)?;
            Ok(None)
        }
        Storage::Static => {
            let ty = object_in_block(frame.alloc, &mut local.standing, name, d, declared)?;
            let item = object_where(frame, local, manner, name, ty, &d.init)?;
            Ok(Some(item))
        }
        Storage::Unnamed => {
            let ty = object_in_block(frame.alloc, &mut local.standing, name, d, declared)?;
            let item = variable_where(frame, local, manner.at, name, ty, &d.init)?;
            Ok(Some(item))
        }
        Storage::Extern => {
            unknown_in(&mut local.standing, name)?;
            Ok(None)
        }
    }
}

/// Whether a declarator is that of a prototype.
fn is_prototype(storage: Storage, d: &Declarator<'_>) -> bool
    ensures { result ≡ is_prototype storage (declarator_of d.now) }
{
    declares_function(d) && !is_typedef(storage)
}

/// A declarator in a block with its name.
fn local_named<'s>(
    frame: &Frame<'_, 's>,
    local: &mut Local<'s>,
    manner: Manner,
    ty: &Option<CType>,
    d: &InitDeclarator<'s>,
    name: Identifier<'s>,
) -> Result<Option<Option<Stmt>>, AllocError>
    ensures { IfOk result (λ items. items_as items local.new ≡ local_named only_first (plain_frame frame.now) manner.at manner.storage manner.sensor (option_map plain_type ty.now) (plain_local local.old) (init_declarator_of d.now) (Some (identifier_of name.entry))) }
{
    let given = based_on(frame.alloc, ty)?;
    let declared = declarator_passed(
        frame.alloc,
        &mut local.standing,
        name.at,
        given,
        &d.declarator,
    )?;
    let prototype = is_prototype(manner.storage, &d.declarator);
    if prototype {
        prototype_passed(frame, local, name, d)?;
        return Ok(None);
    }
    let items = by_storage(frame, local, manner, name, d, declared)?;
    Ok(items)
}

/// A declarator in a block: without a name it declares nothing.
fn local_declarator<'s>(
    frame: &Frame<'_, 's>,
    local: &mut Local<'s>,
    manner: Manner,
    ty: &Option<CType>,
    d: &InitDeclarator<'s>,
) -> Result<Option<Option<Stmt>>, AllocError>
    ensures { IfOk result (λ items. items_as items local.new ≡ local_named only_first (plain_frame frame.now) manner.at manner.storage manner.sensor (option_map plain_type ty.now) (plain_local local.old) (init_declarator_of d.now) (name_in (declarator_of d.now.declarator))) }
{
    match name_in(&d.declarator) {
        None => Ok(None),
        Some(name) => {
            let items = local_named(frame, local, manner, ty, d, name)?;
            Ok(items)
        }
    }
}

/// The items so far with what a declarator becomes.
fn items_more(items: Items, given: Option<Option<Stmt>>) -> Result<Items, AllocError>
    ensures { IfOk result (λ b. (l : PlainLocal) (m : CodeLocal) → plain_block b (plain_local m) ≡ with_items (plain_block items l) (items_as given m)) }
{
    match given {
        None => Ok(items),
        Some(one) => {
            let items = with_item(items, one)?;
            Ok(items)
        }
    }
}

/// Declarators in a block, one after the other, with the type that their specifiers name.
fn declarators_added<'s>(
    all: &[InitDeclarator<'s>],
    frame: &Frame<'_, 's>,
    manner: Manner,
    ty: &Option<CType>,
    local: &mut Local<'s>,
    items: Items,
) -> Result<Items, AllocError>
    ensures { IfOk result (λ b. plain_block b (plain_local local.new) ≡ declarators_added only_first (plain_frame frame.now) manner.at manner.storage manner.sensor (option_map plain_type ty.now) (plain_block items (plain_local local.old)) (map init_declarator_of all.now)) }
{
    let mut items = items;
    for d in all {
        let given = local_declarator(frame, local, manner, ty, d)?;
        items = items_more(items, given)?;
    }
    Ok(items)
}

/// What the declarators of a declaration have in common.
fn manner_of(d: &Decl<'_>) -> Manner
    ensures at { result.at ≡ d.now.at }
    ensures storage { result.storage ≡ storage_of (declaration_of d.now).specifiers }
    ensures sensor { result.sensor ≡ makes_sensors (declaration_of d.now) }
{
    Manner {
        at: d.at,
        storage: storage_of(&d.specs),
        sensor: makes_sensors(d),
    }
}

/// Puts down what a declaration in a block, or in the first clause of a `for`, becomes: a statement for each variable and each object of
/// static lifetime. The declaration is one item of its block.
pub(crate) fn declared_into<'s>(
    d: &Decl<'s>,
    frame: &Frame<'_, 's>,
    site: Site,
    local: &mut Local<'s>,
    items: Items,
) -> Result<Items, AllocError>
    ensures { IfOk result (λ b. plain_block b (plain_local local.new) ≡ with_declared (plain_block items (plain_local local.old)) (declared_locally only_first (plain_frame frame.now) site (plain_local local.old) (declaration_of d.now))) }
{
    let ty = specified_in(frame.alloc, &mut local.standing, false, site, d)?;
    let manner = manner_of(d);
    let items = declarators_added(&d.declarators, frame, manner, &ty, local, items)?;
    let all = with_kind(items, Kind::Other)?;
    Ok(all)
}
