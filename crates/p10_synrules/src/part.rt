//! Parts of trees.

ghost use Rattle.std.specs.Prelude.{◌≡◌, ◌++◌, ◌∷◌, [], IfOk, OnOk, Option};
ghost use Rattle.p10_syn.specs.Built.{identifier_of, tag_of};
ghost use Rattle.p10_synrules.specs.Parts.{tag_parts, NamePart};
ghost use Rattle.p10_synrules.specs.private.Views.{plain_parts};

use p10_syn::{Declarator as Declared, Expr, Identifier, Stmt};
use std::alloc::AllocError;

/// A part of a tree that rules look at.
#[derive(Clone, Copy)]
pub(crate) enum Part<'t, 's> {
    /// An expression, and whether it stands in the condition of an `if`.
    Expression(bool, &'t Expr<'s>),
    /// A whole declarator, and whether it makes its name a typedef name.
    Declarator(bool, &'t Declared<'s>),
    /// A statement, or a declaration in a block or at the head of a `for`.
    Statement(&'t Stmt<'s>),
    /// A word that is a name.
    Name(Identifier<'s>),
}

/// Puts an element at the end of a list. It is generic, since each step of a proof writes out the type of what it moves, and that of a
/// part is long.
pub(crate) fn push_one<T: Drop>(all: &mut Vec<T>, one: T) -> Result<(), AllocError>
    ensures { OnOk result (all.new.items ≡ all.old.items ++ one ∷ []) }
{
    all.push(one)?;
    Ok(())
}

/// Puts down a name.
pub(crate) fn put_name<'s>(
    name: &Identifier<'s>,
    into: &mut Vec<Part<'_, 's>>,
) -> Result<(), AllocError>
    ensures { IfOk result (λ done. plain_parts into.new ≡ plain_parts into.old ++ NamePart (identifier_of name.now) ∷ []) }
{
    push_one(into, Part::Name(*name))?;
    Ok(())
}

/// Puts down the name of a structure, union or enumeration, if it has one.
pub(crate) fn put_tag<'s>(
    tag: &Option<Identifier<'s>>,
    into: &mut Vec<Part<'_, 's>>,
) -> Result<(), AllocError>
    ensures { IfOk result (λ done. plain_parts into.new ≡ plain_parts into.old ++ tag_parts (tag_of tag.now)) }
{
    match tag {
        None => Ok(()),
        Some(name) => put_name(name, into),
    }
}
