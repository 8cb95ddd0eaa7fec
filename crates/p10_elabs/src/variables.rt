//! Variables and objects of static lifetime that blocks declare (C99 6.2.4, 6.7.8).

ghost use Rattle.std.specs.Prelude.{◌≡◌, IfOk, None, option_map};
ghost use Rattle.p10_core.specs.Types.{plain_type};
ghost use Rattle.p10_core.specs.Views.{plain_statement, plain_initializer};
ghost use Rattle.p10_syn.specs.Built.{identifier_of};
ghost use Rattle.p10_syn.specs.BuiltStatements.{initial_of};
ghost use Rattle.p10_elabx.specs.First.{only_first};
ghost use Rattle.p10_elabs.specs.FrameViews.{plain_frame};
ghost use Rattle.p10_elabs.specs.LocalDeclarations.{with_variable, variable_item, variable_of_type, refused_variable, variable_where, object_of_type, object_where};
ghost use Rattle.p10_elabs.specs.LocalViews.{plain_local};
ghost use Rattle.p10_elabs.specs.private.Declarators.{one_item};

use crate::frame::Frame;
use crate::local::Local;
use crate::locals::{bytes_of, initialized_by, unknown_in};
use p10_base::{At, ListBuf};
use p10_core::{CType, Global as Object, Initializer, Stmt, Variable};
use p10_elabd::{Lifetime, Storage};
use p10_elabx::Named;
use p10_syn::{Identifier, Init};
use std::alloc::AllocError;

/// What the declarators of a declaration in a block have in common.
#[derive(Clone, Copy)]
pub(crate) struct Manner {
    /// Where the declaration stands.
    pub at: At,
    pub storage: Storage,
    /// Whether its objects are sensors.
    pub sensor: bool,
}

/// Declares a variable, and gives its number.
fn with_variable<'s>(
    frame: &Frame<'_, 's>,
    local: &mut Local<'s>,
    name: Identifier<'s>,
    ty: &CType,
) -> Result<u32, AllocError>
    ensures number { IfOk result (λ n. n ≡ (plain_local local.old).count) }
    ensures after { IfOk result (λ n. plain_local local.new ≡ with_variable only_first (plain_frame frame.now) (identifier_of name.entry) (plain_type ty.now) (plain_local local.old)) }
{
    let bytes = bytes_of(&local.standing.scope.types, ty)?;
    let number = local.next_variable()?;
    let is_frame = frame.is_frame_variable(number, ty);
    let kept = ty.copy(frame.alloc)?;
    let meant = ty.copy(frame.alloc)?;
    local.add_variable(Variable {
        name: name.text,
        ty: kept,
        bytes,
        frame: is_frame,
        span: name.at.span,
    })?;
    let what = Named::Var {
        number,
        ty: meant,
        frame: is_frame,
    };
    local.standing.declare(name, what)?;
    Ok(number)
}

/// The item of a variable with its initialiser.
fn variable_item(at: At, number: u32, initial: Option<Initializer>) -> Option<Stmt>
    ensures { option_map plain_statement result ≡ variable_item at number (option_map plain_initializer initial) }
{
    match initial {
        None => None,
        Some(initial) => Some(Stmt::declare(at, number, initial)),
    }
}

/// A variable of a type, in scope in its own initialiser (C99 6.2.1p7).
fn variable_of_type<'s>(
    frame: &Frame<'_, 's>,
    local: &mut Local<'s>,
    at: At,
    name: Identifier<'s>,
    ty: &CType,
    initial: &Option<Init<'s>>,
) -> Result<Option<Stmt>, AllocError>
    ensures { IfOk result (λ item. one_item item local.new ≡ variable_of_type only_first (plain_frame frame.now) at (identifier_of name.entry) (plain_type ty.now) (initial_of initial.now) (plain_local local.old)) }
{
    let number = with_variable(frame, local, name, ty)?;
    let made = initialized_by(
        frame.alloc,
        &mut local.standing,
        Lifetime::Automatic,
        ty,
        initial,
    )?;
    Ok(variable_item(at, number, made))
}

/// A variable whose type is refused has a number all the same.
fn refused_variable<'s>(local: &mut Local<'s>, name: Identifier<'s>) -> Result<(), AllocError>
    ensures { IfOk result (λ _. one_item None local.new ≡ refused_variable only_first (identifier_of name.entry) (plain_local local.old)) }
{
    local.next_variable()?;
    unknown_in(&mut local.standing, name)?;
    Ok(())
}

/// A variable, where its type isn't refused.
pub(crate) fn variable_where<'s>(
    frame: &Frame<'_, 's>,
    local: &mut Local<'s>,
    at: At,
    name: Identifier<'s>,
    ty: Option<CType>,
    initial: &Option<Init<'s>>,
) -> Result<Option<Stmt>, AllocError>
    ensures { IfOk result (λ item. one_item item local.new ≡ variable_where only_first (plain_frame frame.now) at (identifier_of name.entry) (initial_of initial.now) (option_map plain_type ty) (plain_local local.old)) }
{
    match ty {
        None => {
            refused_variable(local, name)?;
            Ok(None)
        }
        Some(ty) => {
            let item = variable_of_type(frame, local, at, name, &ty, initial)?;
            Ok(item)
        }
    }
}

/// An object of a type, in scope in its own initialiser.
fn object_of_type<'s>(
    frame: &Frame<'_, 's>,
    local: &mut Local<'s>,
    manner: Manner,
    name: Identifier<'s>,
    ty: CType,
    initial: &Option<Init<'s>>,
) -> Result<Option<Stmt>, AllocError>
    ensures { IfOk result (λ item. one_item item local.new ≡ object_of_type only_first (plain_frame frame.now) manner.at (identifier_of name.entry) (plain_type ty) manner.sensor (initial_of initial.now) (plain_local local.old)) }
{
    let number = frame.heads.block_number(name.at);
    let meant = ty.copy(frame.alloc)?;
    let what = Named::Global {
        number,
        ty: meant,
        sensor: manner.sensor,
    };
    local.standing.declare(name, what)?;
    let visible = ListBuf::of(Vec::new(frame.alloc));
    let life = Lifetime::Static;
    let made = initialized_by(frame.alloc, &mut local.standing, life, &ty, initial)?;
    match made {
        None => Ok(None),
        Some(init) => {
            let bytes = bytes_of(&local.standing.scope.types, &ty)?;
            let object = Object {
                name: name.text,
                ty,
                bytes,
                span: name.at.span,
                init,
                owner: Some(frame.number),
                sensor: manner.sensor,
                visible,
            };
            local.add_object(number, object)?;
            Ok(Some(Stmt::declare_static(manner.at, number)))
        }
    }
}

/// An object, where its type isn't refused.
pub(crate) fn object_where<'s>(
    frame: &Frame<'_, 's>,
    local: &mut Local<'s>,
    manner: Manner,
    name: Identifier<'s>,
    ty: Option<CType>,
    initial: &Option<Init<'s>>,
) -> Result<Option<Stmt>, AllocError>
    ensures { IfOk result (λ item. one_item item local.new ≡ object_where only_first (plain_frame frame.now) manner.at (identifier_of name.entry) manner.sensor (initial_of initial.now) (option_map plain_type ty) (plain_local local.old)) }
{
    match ty {
        None => {
            unknown_in(&mut local.standing, name)?;
            Ok(None)
        }
        Some(ty) => {
            let item = object_of_type(frame, local, manner, name, ty, initial)?;
            Ok(item)
        }
    }
}
