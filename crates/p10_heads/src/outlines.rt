//! The declarators of a root, by their forms.

ghost use Rattle.std.specs.Prelude.{◌≡◌, ◌++◌, ◌∷◌, [], Some, IfOk, map, if◌then◌else◌};
ghost use Rattle.p10_syn.specs.Built.{identifier_of};
ghost use Rattle.p10_syn.specs.BuiltStatements.{initial_of, init_declarator_of, definition_of, external_of};
ghost use Rattle.p10_elabd.specs.Shapes.{name_in};
ghost use Rattle.p10_heads.specs.Heads.{is_static, defining_by, defining_of, outline_of, outlines_of, outlines_by, definition_outline, outlines_in, outlines};
ghost use Rattle.p10_heads.specs.declared.outline.Defining.TheVariants as defined;
ghost use Rattle.p10_heads.specs.HeadViews.{plain_outline};

use crate::outline::{Defining, Outline};
use p10_elabd::{Storage, declares_function, name_in, storage_of};
use p10_syn::{Function, Identifier, Init, InitDeclarator, Unit};
use std::alloc::{AllocError, Global};

/// Whether storage is `static`.
pub fn is_static(storage: Storage) -> bool
    ensures { result ≡ is_static storage }
{
    matches!(storage, Storage::Static)
}

/// How a declarator without an initialiser defines an object.
fn defining_by(storage: Storage) -> Defining
    ensures { result ≡ defining_by storage }
{
    match storage {
        Storage::Extern => Defining::Elsewhere,
        Storage::Unnamed | Storage::Typedef | Storage::Static => Defining::Tentatively,
    }
}

/// How a declarator of an object defines it.
fn defining_of(storage: Storage, initial: &Option<Init<'_>>) -> Defining
    ensures { result ≡ defining_of storage (initial_of initial.now) }
{
    match initial {
        None => defining_by(storage),
        Some(_) => Defining::Fully,
    }
}

/// How a declarator defines what it declares: a function has no body there.
fn defining_where(function: bool, storage: Storage, initial: &Option<Init<'_>>) -> Defining
    ensures { result ≡ (if function then defined.Elsewhere else defining_of storage (initial_of initial.now)) }
{
    if function {
        Defining::Elsewhere
    } else {
        defining_of(storage, initial)
    }
}

/// The outline of a declarator with its name.
fn outline_of<'s>(storage: Storage, d: &InitDeclarator<'s>, name: Identifier<'s>) -> Outline<'s>
    ensures { plain_outline result ∷ [] ≡ outline_of storage (init_declarator_of d.now) (Some (identifier_of name.entry)) }
{
    let function = declares_function(&d.declarator);
    let defining = defining_where(function, storage, &d.init);
    Outline {
        name: name.text,
        at: name.at,
        function,
        internal: is_static(storage),
        defining,
    }
}

/// Puts down the outline of a declarator.
#[tactic(auto, using(crate::proofs::ListRows::mapped_more))]
fn put_outline<'s>(
    storage: Storage,
    d: &InitDeclarator<'s>,
    into: &mut Vec<Outline<'s>>,
) -> Result<(), AllocError>
    ensures { IfOk result (λ done. map plain_outline into.new.items ≡ map plain_outline into.old.items ++ outline_of storage (init_declarator_of d.now) (name_in (init_declarator_of d.now).declarator)) }
{
    match name_in(&d.declarator) {
        None => Ok(()),
        Some(name) => {
            into.push(outline_of(storage, d, name))?;
            Ok(())
        }
    }
}

/// Puts down the outlines of declarators.
fn put_outlines<'s>(
    storage: Storage,
    all: &[InitDeclarator<'s>],
    into: &mut Vec<Outline<'s>>,
) -> Result<(), AllocError>
    ensures { IfOk result (λ done. map plain_outline into.new.items ≡ map plain_outline into.old.items ++ outlines_of storage (map init_declarator_of all.now)) }
{
    for d in all {
        put_outline(storage, d, into)?;
    }
    Ok(())
}

/// Puts down the outlines of a declaration by its storage: typedef names are neither functions nor objects.
fn put_declared<'s>(
    storage: Storage,
    all: &[InitDeclarator<'s>],
    into: &mut Vec<Outline<'s>>,
) -> Result<(), AllocError>
    ensures { IfOk result (λ done. map plain_outline into.new.items ≡ map plain_outline into.old.items ++ outlines_by storage (map init_declarator_of all.now)) }
{
    match storage {
        Storage::Typedef => Ok(()),
        Storage::Unnamed | Storage::Extern | Storage::Static => put_outlines(storage, all, into),
    }
}

/// Puts down the outline of a function with its body.
#[tactic(auto, using(crate::proofs::ListRows::mapped_more))]
fn put_definition<'s>(f: &Function<'s>, into: &mut Vec<Outline<'s>>) -> Result<(), AllocError>
    ensures { IfOk result (λ done. map plain_outline into.new.items ≡ map plain_outline into.old.items ++ definition_outline (definition_of f.now) (name_in (definition_of f.now).declarator)) }
{
    match name_in(&f.declarator) {
        None => Ok(()),
        Some(name) => {
            into.push(Outline {
                name: name.text,
                at: name.at,
                function: true,
                internal: is_static(storage_of(&f.specs)),
                defining: Defining::Fully,
            })?;
            Ok(())
        }
    }
}

/// Puts down the outlines of a declaration or function.
pub(crate) fn put_outlines_in<'s>(
    unit: &Unit<'s>,
    into: &mut Vec<Outline<'s>>,
) -> Result<(), AllocError>
    ensures { IfOk result (λ done. map plain_outline into.new.items ≡ map plain_outline into.old.items ++ outlines_in (external_of unit.now)) }
{
    match unit {
        Unit::Decl(_, d) => put_declared(storage_of(&d.specs), &d.declarators, into),
        Unit::Function(f) => put_definition(f, into),
    }
}

/// The outlines of a root, in text order.
pub(crate) fn outlines<'s>(alloc: Global, root: &[Unit<'s>]) -> Result<Vec<Outline<'s>>, AllocError>
    ensures { IfOk result (λ all. map plain_outline all.items ≡ outlines (map external_of root.now)) }
{
    let mut all = Vec::new(alloc);
    for unit in root {
        put_outlines_in(unit, &mut all)?;
    }
    Ok(all)
}
