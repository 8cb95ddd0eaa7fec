//! Objects of static lifetime in blocks.

ghost use Rattle.std.specs.Prelude.{◌≡◌, ◌++◌, IfOk, map};
ghost use Rattle.p10_syn.specs.Trees.{statement_row};
ghost use Rattle.p10_syn.specs.BuiltStatements.{init_declarator_of, statement_of};
ghost use Rattle.p10_elabd.specs.Shapes.{name_in};
ghost use Rattle.p10_heads.specs.Heads.{block_head, block_heads, static_heads, heads_in, heads_in_all};
ghost use Rattle.p10_heads.specs.HeadViews.{plain_head};

use crate::head::Head;
use p10_elabd::{Storage, declares_function, name_in, storage_of};
use p10_syn::{InitDeclarator, Stmt};
use std::alloc::AllocError;

/// Puts down the head of the object that a declarator in a block declares.
#[tactic(auto, using(crate::proofs::ListRows::mapped_more))]
fn put_static<'s>(
    root: u32,
    d: &InitDeclarator<'s>,
    into: &mut Vec<Head<'s>>,
) -> Result<(), AllocError>
    ensures { IfOk result (λ done. map plain_head into.new.items ≡ map plain_head into.old.items ++ block_head root (init_declarator_of d.now) (name_in (init_declarator_of d.now).declarator)) }
{
    match name_in(&d.declarator) {
        None => Ok(()),
        Some(name) => {
            if declares_function(&d.declarator) {
                return Ok(());
            }
            into.push(Head {
                root,
                name: name.text,
                at: name.at,
                internal: true,
                in_block: true,
            })?;
            Ok(())
        }
    }
}

/// Puts down the heads of the objects that declarators in a block declare.
fn put_statics<'s>(
    root: u32,
    all: &[InitDeclarator<'s>],
    into: &mut Vec<Head<'s>>,
) -> Result<(), AllocError>
    ensures { IfOk result (λ done. map plain_head into.new.items ≡ map plain_head into.old.items ++ block_heads root (map init_declarator_of all.now)) }
{
    for d in all {
        put_static(root, d, into)?;
    }
    Ok(())
}

/// Puts down the heads of the objects that a declaration in a block declares: those of `static` ones alone.
fn put_declared<'s>(
    root: u32,
    storage: Storage,
    all: &[InitDeclarator<'s>],
    into: &mut Vec<Head<'s>>,
) -> Result<(), AllocError>
    ensures { IfOk result (λ done. map plain_head into.new.items ≡ map plain_head into.old.items ++ static_heads root storage (map init_declarator_of all.now)) }
{
    match storage {
        Storage::Static => put_statics(root, all, into),
        Storage::Unnamed | Storage::Typedef | Storage::Extern => Ok(()),
    }
}

/// Puts down the heads of the objects in the blocks of a statement.
#[cycle(statics)]
fn put_statics_in<'s>(s: &Stmt<'s>, root: u32, into: &mut Vec<Head<'s>>) -> Result<(), AllocError>
    ensures { IfOk result (λ done. map plain_head into.new.items ≡ map plain_head into.old.items ++ heads_in root (statement_of s.now)) }
{
    match s {
        Stmt::Empty(_)
        | Stmt::Expr(_, _)
        | Stmt::Goto(_, _)
        | Stmt::Break(_)
        | Stmt::Continue(_)
        | Stmt::Return(_, _, _)
        | Stmt::Mark(_, _) => Ok(()),
        Stmt::Block(_, all) => {
            put_all_statics(all, root, into)?;
            Ok(())
        }
        Stmt::If(_, _, s)
        | Stmt::Switch(_, _, _, s)
        | Stmt::While(_, _, _, s)
        | Stmt::Do(_, _, s, _)
        | Stmt::For(_, _, _, _, _, s)
        | Stmt::Case(_, _, s)
        | Stmt::Default(_, s)
        | Stmt::Label(_, _, s) => {
            put_statics_in(s, root, into)?;
            Ok(())
        }
        Stmt::IfElse(_, _, s, t) => {
            put_statics_in(s, root, into)?;
            put_statics_in(t, root, into)?;
            Ok(())
        }
        Stmt::Decl(d) => put_declared(root, storage_of(&d.specs), &d.declarators, into),
    }
}

/// Puts down the heads of the objects in the blocks of statements.
#[cycle(statics)]
pub(crate) fn put_all_statics<'s>(
    all: &[Stmt<'s>],
    root: u32,
    into: &mut Vec<Head<'s>>,
) -> Result<(), AllocError>
    ensures { IfOk result (λ done. map plain_head into.new.items ≡ map plain_head into.old.items ++ heads_in_all root (statement_row (map statement_of all.now))) }
{
    for s in all {
        put_statics_in(s, root, into)?;
    }
    Ok(())
}
