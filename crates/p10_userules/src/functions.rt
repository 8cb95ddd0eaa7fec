//! What is known of the functions of a program: the occurrences in them, and where functions and blocks lie among these.

ghost use Rattle.std.specs.Prelude.{◌≡◌, ◌++◌, [], ◌∷◌, IfOk, map, length};
ghost use Rattle.std.specs.List.{flat_map};
ghost use Rattle.p10_core.specs.Views.{plain_object, plain_function};
ghost use Rattle.p10_userules.specs.Occurrences.{occurrences_outside};
ghost use Rattle.p10_userules.specs.private.Walking.{passed, passed_all, parts_of, parts_of_all, stretches_of_all};

use crate::occurrences::{Occurrence, put_initializer};
use crate::parts::{BlockParts, Stretch};
use crate::walking::{Walk, declared_among, put_block, walk_all};
use p10_base::ListBuf;
use p10_core::{Func, Global as StaticObject};
use std::alloc::{AllocError, Global};
use std::mem;

/// Walks over a function, whose occurrences come after the others. No blocks are left from before.
fn walk_function(
    f: &Func<'_>,
    alloc: Global,
    objects: &[StaticObject<'_>],
    walk: &mut Walk,
) -> Result<Vec<BlockParts>, AllocError>
    requires { walk.old.blocks.items ≡ [] }
    ensures occurrences { IfOk result (λ _. walk.new.occurrences.items ≡ passed (map plain_object objects.now) walk.old.occurrences.items (plain_function f.now)) }
    ensures blocks { IfOk result (λ blocks. blocks.items ≡ parts_of (map plain_object objects.now) walk.old.occurrences.items (plain_function f.now)) }
    ensures none { IfOk result (λ _. walk.new.blocks.items ≡ []) }
{
    let mut nested = Vec::new(alloc);
    walk_all(f.body.as_slice(), alloc, objects, &mut nested, walk)?;
    let declared = declared_among(alloc, f.body.as_slice())?;
    put_block(declared, nested, &mut walk.blocks)?;
    Ok(mem::replace(&mut walk.blocks, Vec::new(alloc)))
}

/// What is known of the functions of a program, by their numbers.
#[derive(Drop)]
pub(crate) struct Parts {
    /// The stretches of their occurrences.
    pub stretches: Vec<Stretch>,
    /// Their blocks.
    pub blocks: Vec<ListBuf<BlockParts>>,
}

/// Puts what is known of a function after the others.
fn put_function(
    f: &Func<'_>,
    alloc: Global,
    objects: &[StaticObject<'_>],
    walk: &mut Walk,
    parts: &mut Parts,
) -> Result<(), AllocError>
    requires { walk.old.blocks.items ≡ [] }
    ensures occurrences { IfOk result (λ _. walk.new.occurrences.items ≡ passed (map plain_object objects.now) walk.old.occurrences.items (plain_function f.now)) }
    ensures none { IfOk result (λ _. walk.new.blocks.items ≡ []) }
    ensures stretches { IfOk result (λ _. parts.new.stretches.items ≡ parts.old.stretches.items ++ record { start = length walk.old.occurrences.items; end = length walk.new.occurrences.items } ∷ []) }
    ensures blocks { IfOk result (λ _. parts.new.blocks.items ≡ parts.old.blocks.items ++ parts_of (map plain_object objects.now) walk.old.occurrences.items (plain_function f.now) ∷ []) }
{
    let start = walk.occurrences.len();
    let blocks = walk_function(f, alloc, objects, walk)?;
    let end = walk.occurrences.len();
    parts.stretches.push(Stretch { start, end })?;
    parts.blocks.push(ListBuf::of(blocks))?;
    Ok(())
}

/// Walks over the functions of a program.
pub(crate) fn walk_functions(
    alloc: Global,
    objects: &[StaticObject<'_>],
    functions: &[Func<'_>],
    walk: &mut Walk,
) -> Result<Parts, AllocError>
    requires none { walk.old.blocks.items ≡ [] }
    requires first { walk.old.occurrences.items ≡ [] }
    ensures occurrences { IfOk result (λ _. walk.new.occurrences.items ≡ passed_all (map plain_object objects.now) [] (map plain_function functions.now)) }
    ensures stretches { IfOk result (λ parts. parts.stretches.items ≡ stretches_of_all (map plain_object objects.now) [] (map plain_function functions.now)) }
    ensures blocks { IfOk result (λ parts. parts.blocks.items ≡ parts_of_all (map plain_object objects.now) [] (map plain_function functions.now)) }
{
    let mut parts = Parts {
        stretches: Vec::new(alloc),
        blocks: Vec::new(alloc),
    };
    for f in functions {
        put_function(f, alloc, objects, walk, &mut parts)?;
    }
    Ok(parts)
}

/// Puts the occurrences in the initialiser of an object of file scope after the others.
fn put_outside(o: &StaticObject<'_>, occurrences: &mut Vec<Occurrence>) -> Result<(), AllocError>
    ensures { IfOk result (λ _. occurrences.new.items ≡ occurrences.old.items ++ occurrences_outside (plain_object o.now)) }
{
    match o.owner {
        None => put_initializer(&o.init, occurrences),
        Some(_) => Ok(()),
    }
}

/// Puts the occurrences in the initialisers at file scope after the others.
pub(crate) fn put_all_outside(
    objects: &[StaticObject<'_>],
    occurrences: &mut Vec<Occurrence>,
) -> Result<(), AllocError>
    ensures { IfOk result (λ _. occurrences.new.items ≡ occurrences.old.items ++ flat_map occurrences_outside (map plain_object objects.now)) }
{
    for o in objects {
        put_outside(o, occurrences)?;
    }
    Ok(())
}
