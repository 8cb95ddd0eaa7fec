//! Names where the body of a function begins: those of its parameters (C99 6.2.1p4).

ghost use Rattle.std.specs.Prelude.{◌≡◌, ◌∷◌, [], IfOk};
ghost use Rattle.p10_bindings.specs.Taken.{names_of};
ghost use Rattle.p10_elabx.specs.Scopes.{is_tag, entered};
ghost use Rattle.p10_elabx.specs.Views.{meaning_of, binding_of, bindings_of};
ghost use Rattle.p10_elabx.specs.PlainScopes.{plain_scope};
ghost use Rattle.p10_elabs.specs.FrameViews.{plain_frame};
ghost use Rattle.p10_elab.specs.Outer.{meaning_in_body};
ghost use Rattle.p10_elab.specs.private.Opening.{named_in_body, in_body, with_names, with_tags};

use p10_bindings::Bound;
use p10_elabs::Frame;
use p10_elabx::{Named, Scope};
use std::alloc::AllocError;

/// Opens the block of a body: its names and tags begin with those that are declared among the parameters, where it is known which are
/// frame variables.
pub(crate) fn open_body<'s>(
    frame: &Frame<'_, 's>,
    scope: &mut Scope<'s>,
    names: Vec<Bound<'s, Named>>,
    tags: Vec<Bound<'s, Named>>,
) -> Result<(), AllocError>
    ensures { IfOk result (λ _. plain_scope scope.new ≡ with_tags (with_names (entered (plain_scope scope.old)) (in_body (plain_frame frame.now) (bindings_of (names_of names.entry.items)))) (bindings_of (names_of tags.entry.items))) }
{
    scope.enter()?;
    declare_names(frame, scope, names)?;
    declare_tags(scope, tags)?;
    Ok(())
}

/// Declares the names of parameters in the body.
fn declare_names<'s>(
    frame: &Frame<'_, 's>,
    scope: &mut Scope<'s>,
    names: Vec<Bound<'s, Named>>,
) -> Result<(), AllocError>
    ensures { IfOk result (λ _. plain_scope scope.new ≡ with_names (plain_scope scope.old) (in_body (plain_frame frame.now) (bindings_of (names_of names.entry.items)))) }
{
    for bound in names {
        declare_in_body(frame, scope, bound.name, bound.what)?;
    }
    Ok(())
}

/// Declares a name of the parameters in the body. There are no tags among names: one would be answered as out of memory.
fn declare_in_body<'s>(
    frame: &Frame<'_, 's>,
    scope: &mut Scope<'s>,
    name: &'s [u8],
    what: Named,
) -> Result<(), AllocError>
    ensures { IfOk result (λ _. plain_scope scope.new ≡ with_names (plain_scope scope.old) (named_in_body (plain_frame frame.now) (binding_of (name.now, what)) ∷ [])) }
{
    let what = meaning_in_body(frame, what);
    if is_tag(&what) {
        Err(AllocError)
    } else {
        scope.declare(name, what)?;
        Ok(())
    }
}

/// What a name among the parameters stands for in the body.
fn meaning_in_body(frame: &Frame<'_, '_>, what: Named) -> Named
    ensures { meaning_of result ≡ meaning_in_body (plain_frame frame.now) (meaning_of what) }
{
    match what {
        Named::Var { number, ty, .. } => Named::Var {
            number,
            frame: frame.is_frame_variable(number, &ty),
            ty,
        },
        Named::Global { number, ty, sensor } => Named::Global { number, ty, sensor },
        Named::Function {
            number,
            params,
            result,
        } => Named::Function {
            number,
            params,
            result,
        },
        Named::Constant(value) => Named::Constant(value),
        Named::Typedef(ty) => Named::Typedef(ty),
        Named::Tag(ty) => Named::Tag(ty),
        Named::Unknown => Named::Unknown,
        Named::UnknownTag => Named::UnknownTag,
    }
}

/// Whether what a name stands for is a tag.
fn is_tag(what: &Named) -> bool
    ensures { result ≡ is_tag (meaning_of what.now) }
{
    match what {
        Named::Tag(_) => true,
        Named::UnknownTag => true,
        Named::Var { .. } => false,
        Named::Global { .. } => false,
        Named::Function { .. } => false,
        Named::Constant(_) => false,
        Named::Typedef(_) => false,
        Named::Unknown => false,
    }
}

/// Declares the tags of parameters in the body.
fn declare_tags<'s>(scope: &mut Scope<'s>, tags: Vec<Bound<'s, Named>>) -> Result<(), AllocError>
    ensures { IfOk result (λ _. plain_scope scope.new ≡ with_tags (plain_scope scope.old) (bindings_of (names_of tags.entry.items))) }
{
    for bound in tags {
        declare_tag(scope, bound.name, bound.what)?;
    }
    Ok(())
}

/// Declares a tag of the parameters in the body; it may be one that names nothing yet. There are no other names among tags: one would
/// be answered as out of memory.
fn declare_tag<'s>(scope: &mut Scope<'s>, name: &'s [u8], what: Named) -> Result<(), AllocError>
    ensures { IfOk result (λ _. plain_scope scope.new ≡ with_tags (plain_scope scope.old) (binding_of (name.now, what) ∷ [])) }
{
    match what {
        Named::Unknown => {
            scope.hide_tag(name)?;
            Ok(())
        }
        other => {
            if is_tag(&other) {
                scope.declare(name, other)?;
                Ok(())
            } else {
                Err(AllocError)
            }
        }
    }
}
