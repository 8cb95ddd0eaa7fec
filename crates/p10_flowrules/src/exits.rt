//! The statements that leave the task loop.

ghost use Rattle.std.specs.Prelude.{◌≡◌, ◌++◌, ◌∷◌, [], IfOk, OnOk, Some, option_copied, option_map, slice_get};
ghost use Rattle.p10_core.specs.Typed.{statements_list};
ghost use Rattle.p10_core.specs.Views.{plain_program, plain_statement, plain_statements};
ghost use Rattle.p10_flowrules.specs.TaskExits.{exit_by_break, exits_at, exits_in, exits_of, exits_of_loop, task_exits};
ghost use Rattle.p10_flowrules.specs.private.Branches.{exits_of_branch};

use crate::main_body::main_body;
use p10_base::At;
use p10_core::{Program, Stmt, StmtForm};
use std::alloc::{AllocError, Global};

/// What a `break` does.
#[derive(Clone, Copy, Debug, PartialEq, Eq)]
pub enum Breaks {
    /// It leaves the loop in question.
    Leave,
    /// It leaves a loop or `switch` within that one.
    Stay,
}

/// The places of the statements that leave the task loop, in text order: each `return` in it, and each `break` that leaves it. There
/// are none where the program has no task loop. It fails only where memory runs out.
pub fn task_exits(alloc: Global, program: &Program<'_>) -> Result<Vec<At>, AllocError>
    ensures { IfOk result (λ exits. exits.items ≡ task_exits (plain_program program.now)) }
{
    exits_at(alloc, main_body(program), program.task)
}

/// The statements that leave the loop at a place among items.
fn exits_at(alloc: Global, items: &[Stmt], place: Option<u32>) -> Result<Vec<At>, AllocError>
    ensures { IfOk result (λ exits. exits.items ≡ exits_at place (statements_list (plain_statements items.now))) }
{
    match place {
        Some(place) => exits_of_loop(alloc, item_at(items, place as usize)),
        None => Ok(Vec::new(alloc)),
    }
}

/// The item at a place, if there is one.
fn item_at(items: &[Stmt], place: usize) -> Option<&Stmt>
    ensures { option_copied result ≡ slice_get items.now place }
{
    items.get(place)
}

/// The statements that leave a loop.
fn exits_of_loop(alloc: Global, item: Option<&Stmt>) -> Result<Vec<At>, AllocError>
    ensures { IfOk result (λ exits. exits.items ≡ exits_of_loop (option_map plain_statement (option_copied item.entry))) }
{
    let mut exits = Vec::new(alloc);
    match item {
        Some(statement) => {
            push_loop(statement, &mut exits)?;
            Ok(exits)
        }
        None => Ok(exits),
    }
}

/// Puts the statements that leave a loop after the others, if the statement is one.
fn push_loop(statement: &Stmt, exits: &mut Vec<At>) -> Result<(), AllocError>
    ensures { OnOk result (exits.new.items ≡ exits.old.items ++ exits_of_loop (Some (plain_statement statement.now))) }
{
    match &statement.form {
        StmtForm::Loop(_, _, _, _, body) => push_exits(body, Breaks::Leave, exits),
        _ => Ok(()),
    }
}

/// Puts the statements in a statement that leave the loop after the others.
#[cycle(exits)]
fn push_exits(statement: &Stmt, breaks: Breaks, exits: &mut Vec<At>) -> Result<(), AllocError>
    ensures { OnOk result (exits.new.items ≡ exits.old.items ++ exits_in breaks (plain_statement statement.now)) }
{
    match &statement.form {
        StmtForm::Break => push_break(statement.at, breaks, exits),
        StmtForm::Return(_, _) => push_place(statement.at, exits),
        StmtForm::Block(items) => push_all(items.as_slice(), breaks, exits),
        StmtForm::If(_, then, other) => {
            push_exits(then, breaks, exits)?;
            push_other(other, breaks, exits)
        }
        StmtForm::Loop(_, _, _, _, body) => push_exits(body, Breaks::Stay, exits),
        StmtForm::Switch(_, _, _, body) => push_exits(body, Breaks::Stay, exits),
        StmtForm::Set(_, _)
        | StmtForm::Update(_, _, _, _, _)
        | StmtForm::Copy(_, _)
        | StmtForm::Value(_)
        | StmtForm::Assert(_, _)
        | StmtForm::Declare(_, _)
        | StmtForm::Static(_)
        | StmtForm::Continue
        | StmtForm::Empty
        | StmtForm::Mark(_) => Ok(()),
    }
}

/// Puts those of statements, one after the other.
#[cycle(exits)]
fn push_all(all: &[Stmt], breaks: Breaks, exits: &mut Vec<At>) -> Result<(), AllocError>
    ensures { OnOk result (exits.new.items ≡ exits.old.items ++ exits_of breaks (plain_statements all.now)) }
{
    for statement in all {
        push_exits(statement, breaks, exits)?;
    }
    Ok(())
}

/// Puts those of the second branch of an `if`, if there is one.
#[cycle(exits)]
fn push_other(
    other: &Option<Box<Stmt>>,
    breaks: Breaks,
    exits: &mut Vec<At>,
) -> Result<(), AllocError>
    ensures { OnOk result (exits.new.items ≡ exits.old.items ++ exits_of_branch breaks (option_map (λ x. plain_statement x.value) other.now)) }
{
    match other {
        Some(other) => push_exits(other, breaks, exits),
        None => Ok(()),
    }
}

/// Puts a `break`, if it leaves the loop.
fn push_break(at: At, breaks: Breaks, exits: &mut Vec<At>) -> Result<(), AllocError>
    ensures { OnOk result (exits.new.items ≡ exits.old.items ++ exit_by_break breaks at) }
{
    match breaks {
        Breaks::Leave => push_place(at, exits),
        Breaks::Stay => Ok(()),
    }
}

/// Puts a place after the others.
fn push_place(at: At, exits: &mut Vec<At>) -> Result<(), AllocError>
    ensures { OnOk result (exits.new.items ≡ exits.old.items ++ (at ∷ [])) }
{
    exits.push(at)?;
    Ok(())
}
