//! How many free slots statements need. There is no memory for more than a number of 32 bits counts.

ghost use Rattle.std.specs.Prelude.{◌≡◌, ◌+◌, max, IfOk};
ghost use Rattle.p10_core.specs.Views.{plain_value, plain_place, plain_statement, plain_statements};
ghost use Rattle.p10_code.specs.ValueCode.{height, place_height};
ghost use Rattle.p10_code.specs.StatementCode.{need, statements_need};

use crate::counts::slot_after;
use crate::heights::{height, initializer_height, place_height, test_height};
use p10_core::{Place, Stmt, StmtForm, Value};
use std::alloc::AllocError;

/// How many free slots a statement needs.
#[cycle(needs)]
pub fn need(s: &Stmt) -> Result<u32, AllocError>
    ensures { IfOk result (λ n. n ≡ need (plain_statement s.now)) }
{
    match &s.form {
        StmtForm::Set(place, v) => pair_height(2, place, v),
        StmtForm::Update(_, _, _, place, v) => pair_height(3, place, v),
        StmtForm::Copy(target, source) => {
            let first = place_height(target)?;
            slot_after(2, first.max(place_height(source)?))
        }
        StmtForm::Value(v) => slot_after(1, height(v)?),
        StmtForm::Assert(_, v) => slot_after(1, height(v)?),
        StmtForm::Declare(_, initializer) => initializer_height(initializer),
        StmtForm::Block(items) => statements_need(items.as_slice()),
        StmtForm::If(v, first, None) => {
            let test = slot_after(1, height(v)?)?;
            Ok(test.max(need(first)?))
        }
        StmtForm::If(v, first, Some(second)) => {
            let test = slot_after(1, height(v)?)?;
            let left = need(first)?;
            Ok(test.max(left.max(need(second)?)))
        }
        StmtForm::Loop(_, first, test, third, body) => {
            let tested = test_height(test)?;
            let before = statements_need(first.as_slice())?;
            let after = statements_need(third.as_slice())?;
            Ok(tested.max(before.max(after.max(need(body)?))))
        }
        StmtForm::Switch(_, v, _, body) => {
            let test = slot_after(1, height(v)?)?;
            Ok(test.max(need(body)?))
        }
        StmtForm::Return(_, v) => test_height(v),
        StmtForm::Static(_)
        | StmtForm::Break
        | StmtForm::Continue
        | StmtForm::Empty
        | StmtForm::Mark(_) => Ok(0),
    }
}

/// How many free slots a place and a value need, beside so many others.
fn pair_height(more: u32, place: &Place, v: &Value) -> Result<u32, AllocError>
    ensures { IfOk result (λ n. n ≡ more + max (place_height (plain_place place.now)) (height (plain_value v.now))) }
{
    let first = place_height(place)?;
    slot_after(more, first.max(height(v)?))
}

/// How many free slots statements need: they use the same ones.
#[cycle(needs)]
pub fn statements_need(statements: &[Stmt]) -> Result<u32, AllocError>
    ensures { IfOk result (λ n. n ≡ statements_need (plain_statements statements.now)) }
{
    let mut most = 0;
    for s in statements {
        most = need(s)?.max(most);
    }
    Ok(most)
}
