//! A walk over statements: the occurrences in them, and where their blocks lie among these.

ghost use Rattle.std.specs.Prelude.{◌≡◌, ◌++◌, [], ◌∷◌, IfOk, map, option_map, option_copied, slice_get};
ghost use Rattle.p10_core.specs.Views.{plain_statement, plain_statements, plain_statement_form, plain_object};
ghost use Rattle.p10_core.specs.Typed.{block};
ghost use Rattle.p10_userules.specs.Occurrences.{occurrences_at_object};
ghost use Rattle.p10_userules.specs.Blocks.{declared_by, declared_among};
ghost use Rattle.p10_userules.specs.private.Walking.{walk_of, simple_occurrences, walk_over, walk_over_form, walk_over_all};

use crate::occurrences::{Occurrence, Referent, put_initializer, put_maybe, put_place, put_value};
use crate::parts::{BlockParts, Stretch};
use p10_base::ListBuf;
use p10_core::{Global as StaticObject, LoopKeyword, Stmt, StmtForm};
use std::alloc::{AllocError, Global};

/// What a walk has found, except for the blocks in the one that it is in.
#[derive(Drop)]
pub(crate) struct Walk {
    pub occurrences: Vec<Occurrence>,
    /// The blocks that were left.
    pub blocks: Vec<BlockParts>,
}

/// The object with a number.
fn object_at<'a, 's>(objects: &'a [StaticObject<'s>], number: u32) -> Option<&'a StaticObject<'s>>
    ensures { option_map plain_object (option_copied result) ≡ slice_get (map plain_object objects.now) number }
{
    objects.get(number as usize)
}

/// Puts the occurrences in the initialiser of an object after the others, if the object is there.
fn put_object(
    number: u32,
    objects: &[StaticObject<'_>],
    occurrences: &mut Vec<Occurrence>,
) -> Result<(), AllocError>
    ensures { IfOk result (λ _. occurrences.new.items ≡ occurrences.old.items ++ occurrences_at_object (slice_get (map plain_object objects.now) number)) }
{
    match object_at(objects, number) {
        Some(object) => put_initializer(&object.init, occurrences),
        None => Ok(()),
    }
}

/// Puts what an item of a block declares after the others.
fn put_declared(s: &Stmt, declared: &mut Vec<Referent>) -> Result<(), AllocError>
    ensures { IfOk result (λ _. declared.new.items ≡ declared.old.items ++ declared_by (plain_statement s.now)) }
{
    match &s.form {
        StmtForm::Declare(number, _) => {
            declared.push(Referent::Variable(*number))?;
            Ok(())
        }
        StmtForm::Static(number) => {
            declared.push(Referent::Object(*number))?;
            Ok(())
        }
        StmtForm::Set(_, _)
        | StmtForm::Update(_, _, _, _, _)
        | StmtForm::Copy(_, _)
        | StmtForm::Value(_)
        | StmtForm::Assert(_, _)
        | StmtForm::Block(_)
        | StmtForm::If(_, _, _)
        | StmtForm::Loop(_, _, _, _, _)
        | StmtForm::Switch(_, _, _, _)
        | StmtForm::Break
        | StmtForm::Continue
        | StmtForm::Return(_, _)
        | StmtForm::Empty
        | StmtForm::Mark(_) => Ok(()),
    }
}

/// What the items of a block declare in it.
pub(crate) fn declared_among(alloc: Global, all: &[Stmt]) -> Result<Vec<Referent>, AllocError>
    ensures { IfOk result (λ declared. declared.items ≡ declared_among (plain_statements all.now)) }
{
    let mut declared = Vec::new(alloc);
    for s in all {
        put_declared(s, &mut declared)?;
    }
    Ok(declared)
}

/// Walks over a statement without statements in it, or passes another one.
fn walk_simple(
    form: &StmtForm,
    objects: &[StaticObject<'_>],
    occurrences: &mut Vec<Occurrence>,
) -> Result<(), AllocError>
    ensures { IfOk result (λ _. occurrences.new.items ≡ occurrences.old.items ++ simple_occurrences (map plain_object objects.now) (plain_statement_form form.now)) }
{
    match form {
        StmtForm::Set(target, value) | StmtForm::Update(_, _, _, target, value) => {
            put_place(target, false, occurrences)?;
            put_value(value, false, occurrences)
        }
        StmtForm::Copy(target, source) => {
            put_place(target, false, occurrences)?;
            put_place(source, false, occurrences)
        }
        StmtForm::Value(value) => put_value(value, false, occurrences),
        StmtForm::Assert(_, value) => put_value(value, true, occurrences),
        StmtForm::Declare(_, initial) => put_initializer(initial, occurrences),
        StmtForm::Static(number) => put_object(*number, objects, occurrences),
        StmtForm::Return(_, value) => put_maybe(value, occurrences),
        StmtForm::Block(_)
        | StmtForm::If(_, _, _)
        | StmtForm::Loop(_, _, _, _, _)
        | StmtForm::Switch(_, _, _, _)
        | StmtForm::Break
        | StmtForm::Continue
        | StmtForm::Empty
        | StmtForm::Mark(_) => Ok(()),
    }
}

/// Walks over a statement. The outermost blocks in it that are reached without entering a loop come after those
/// that were `nested`.
#[cycle(statements)]
fn walk_statement(
    s: &Stmt,
    alloc: Global,
    objects: &[StaticObject<'_>],
    nested: &mut Vec<Stretch>,
    walk: &mut Walk,
) -> Result<(), AllocError>
    ensures { IfOk result (λ _. walk_of walk.new nested.new.items ≡ walk_over (map plain_object objects.now) (plain_statement s.now) (walk_of walk.old nested.old.items)) }
{
    match &s.form {
        StmtForm::Block(all) => walk_block(all.as_slice(), alloc, objects, nested, walk),
        StmtForm::If(test, then, None) => {
            put_value(test, true, &mut walk.occurrences)?;
            walk_statement(then, alloc, objects, nested, walk)
        }
        StmtForm::If(test, then, Some(otherwise)) => {
            put_value(test, true, &mut walk.occurrences)?;
            walk_statement(then, alloc, objects, nested, walk)?;
            walk_statement(otherwise, alloc, objects, nested, walk)
        }
        StmtForm::Loop(head, first, test, third, body) => {
            let mut inside = Vec::new(alloc);
            match head.keyword {
                LoopKeyword::While | LoopKeyword::For => {
                    walk_all(first.as_slice(), alloc, objects, &mut inside, walk)?;
                    put_maybe(test, &mut walk.occurrences)?;
                    walk_all(third.as_slice(), alloc, objects, &mut inside, walk)?;
                    walk_statement(body, alloc, objects, &mut inside, walk)?;
                    Ok(())
                }
                LoopKeyword::Do => {
                    walk_all(first.as_slice(), alloc, objects, &mut inside, walk)?;
                    walk_statement(body, alloc, objects, &mut inside, walk)?;
                    put_maybe(test, &mut walk.occurrences)?;
                    walk_all(third.as_slice(), alloc, objects, &mut inside, walk)?;
                    Ok(())
                }
            }
        }
        StmtForm::Switch(_, value, _, body) => {
            put_value(value, false, &mut walk.occurrences)?;
            walk_statement(body, alloc, objects, nested, walk)
        }
        StmtForm::Set(_, _)
        | StmtForm::Update(_, _, _, _, _)
        | StmtForm::Copy(_, _)
        | StmtForm::Value(_)
        | StmtForm::Assert(_, _)
        | StmtForm::Declare(_, _)
        | StmtForm::Static(_)
        | StmtForm::Break
        | StmtForm::Continue
        | StmtForm::Return(_, _)
        | StmtForm::Empty
        | StmtForm::Mark(_) => walk_simple(&s.form, objects, &mut walk.occurrences),
    }
}

/// Walks over a block.
#[cycle(statements)]
fn walk_block(
    all: &[Stmt],
    alloc: Global,
    objects: &[StaticObject<'_>],
    nested: &mut Vec<Stretch>,
    walk: &mut Walk,
) -> Result<(), AllocError>
    ensures { IfOk result (λ _. walk_of walk.new nested.new.items ≡ walk_over_form (map plain_object objects.now) (block (plain_statements all.now)) (walk_of walk.old nested.old.items)) }
{
    let start = walk.occurrences.len();
    let mut inside = Vec::new(alloc);
    walk_all(all, alloc, objects, &mut inside, walk)?;
    let end = walk.occurrences.len();
    nested.push(Stretch { start, end })?;
    let declared = declared_among(alloc, all)?;
    put_block(declared, inside, &mut walk.blocks)
}

/// Walks over statements, one after the other.
#[cycle(statements)]
pub(crate) fn walk_all(
    all: &[Stmt],
    alloc: Global,
    objects: &[StaticObject<'_>],
    nested: &mut Vec<Stretch>,
    walk: &mut Walk,
) -> Result<(), AllocError>
    ensures { IfOk result (λ _. walk_of walk.new nested.new.items ≡ walk_over_all (map plain_object objects.now) (plain_statements all.now) (walk_of walk.old nested.old.items)) }
{
    for s in all {
        walk_statement(s, alloc, objects, nested, walk)?;
    }
    Ok(())
}

/// Puts what is known of a block after the others.
pub(crate) fn put_block(
    declared: Vec<Referent>,
    nested: Vec<Stretch>,
    blocks: &mut Vec<BlockParts>,
) -> Result<(), AllocError>
    ensures { IfOk result (λ _. blocks.new.items ≡ blocks.old.items ++ record { declared = declared.items; nested = nested.items } ∷ []) }
{
    blocks.push(BlockParts {
        declared: ListBuf::of(declared),
        nested: ListBuf::of(nested),
    })?;
    Ok(())
}
