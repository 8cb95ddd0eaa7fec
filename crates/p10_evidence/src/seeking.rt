//! The loop with a number, by a walk over statements in text order.

ghost use Rattle.std.specs.Prelude.{◌≡◌, slice_get};
ghost use Rattle.std.specs.Option.{option_map, option_copied};
ghost use Rattle.p10_core.specs.Views.{plain_statement, plain_statements};
ghost use Rattle.p10_turns.specs.LoopParts.{loops_within, loops_among};
ghost use Rattle.p10_evidence.specs.private.Seeking.{parts_found, sought, sought_by, loops_in_else};

use p10_core::{Stmt, StmtForm};

/// The loop with a number among those in statements, which are counted from 0 in text order.
pub fn loop_among<'a>(all: &'a [Stmt], number: u32) -> Option<&'a Stmt>
    ensures { parts_found (option_map plain_statement (option_copied result)) ≡ slice_get (loops_among (plain_statements all.now)) number }
{
    match seek_among(all, number) {
        Sought::Found(s) => Some(s),
        Sought::Passed(_) => None,
    }
}

/// What a search for a loop comes to.
#[derive(Clone, Copy)]
enum Sought<'a> {
    /// The loop.
    Found(&'a Stmt),
    /// All loops were passed, and the loop has this number among those that follow.
    Passed(u32),
}

/// The search for the loop with a number in statements, one after the other.
#[cycle(seeking)]
fn seek_among<'a>(all: &'a [Stmt], number: u32) -> Sought<'a>
    ensures { sought_by result ≡ sought (loops_among (plain_statements all.now)) number }
{
    let mut left = number;
    for s in all {
        match seek(s, left) {
            Sought::Found(found) => return Sought::Found(found),
            Sought::Passed(further) => left = further,
        }
    }
    Sought::Passed(left)
}

/// The same in one statement.
#[cycle(seeking)]
fn seek<'a>(s: &'a Stmt, number: u32) -> Sought<'a>
    ensures { sought_by result ≡ sought (loops_within (plain_statement s.now)) number }
{
    match &s.form {
        StmtForm::Block(all) => seek_among(all.as_slice(), number),
        StmtForm::If(_, then, other) => match seek(then, number) {
            Sought::Found(found) => Sought::Found(found),
            Sought::Passed(left) => seek_in_else(other, left),
        },
        StmtForm::Loop(_, _, _, _, body) => {
            if number == 0 {
                Sought::Found(s)
            } else {
                seek(body, number - 1)
            }
        }
        StmtForm::Switch(_, _, _, body) => seek(body, number),
        StmtForm::Set(_, _)
        | StmtForm::Update(_, _, _, _, _)
        | StmtForm::Copy(_, _)
        | StmtForm::Value(_)
        | StmtForm::Assert(_, _)
        | StmtForm::Declare(_, _)
        | StmtForm::Static(_)
        | StmtForm::Break
        | StmtForm::Continue
        | StmtForm::Return(_, _)
        | StmtForm::Empty
        | StmtForm::Mark(_) => Sought::Passed(number),
    }
}

/// The same in the second branch of an `if`, if there is one.
#[cycle(seeking)]
fn seek_in_else<'a>(other: &'a Option<Box<Stmt>>, number: u32) -> Sought<'a>
    ensures { sought_by result ≡ sought (loops_in_else (option_map (λ x. plain_statement x.value) other.now)) number }
{
    match other {
        Some(other) => seek(other, number),
        None => Sought::Passed(number),
    }
}
