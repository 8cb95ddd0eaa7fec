//! Tallies of statements (C99 6.8).

ghost use Rattle.std.specs.Prelude.{◌≡◌, option_map};
ghost use Rattle.p10_core.specs.Views.{plain_program, plain_value, plain_statement, plain_statements};
ghost use Rattle.p10_core.specs.WholePrograms.{AreWholeStructures};
ghost use Rattle.p10_sums.specs.private.Tallies.{counting_by};
ghost use Rattle.p10_sums.specs.private.Walks.{test_tally, return_tally, loop_tally, statement_tally, statements_tally};

use crate::basis::{Basis, turns_of};
use crate::initializers::{initializer_tally, variable_tally, width_tally};
use crate::tally::{Tally, as_often, in_turn, no_tally, one_of, paying, some_steps};
use crate::values::{place_tally, value_tally};
use p10_core::{LoopKeyword, Stmt, StmtForm, Value};

/// The tally of a statement.
#[cycle(statements)]
pub(crate) fn statement_tally(basis: &Basis<'_, '_>, s: &Stmt) -> Tally
    requires structures { AreWholeStructures (plain_program basis.now.program.now).structures }
    ensures { result ≡ statement_tally (counting_by basis.now) (plain_statement s.now) }
{
    match &s.form {
        StmtForm::Set(target, value) => paying(in_turn(
            place_tally(basis, target),
            value_tally(basis, value),
        )),
        StmtForm::Update(_, _, _, target, value) => {
            let reached = place_tally(basis, target);
            let given = value_tally(basis, value);
            paying(in_turn(reached, paying(in_turn(given, some_steps(1)))))
        }
        StmtForm::Copy(target, source) => {
            let reached = place_tally(basis, target);
            let from = place_tally(basis, source);
            paying(in_turn(reached, in_turn(from, width_tally(basis, &target.ty))))
        }
        StmtForm::Value(value) | StmtForm::Assert(_, value) => paying(value_tally(basis, value)),
        StmtForm::Declare(number, initial) => paying(initializer_tally(
            basis,
            variable_tally(basis, *number),
            initial,
        )),
        StmtForm::Block(items) => statements_tally(basis, items.as_slice()),
        StmtForm::If(test, then, None) => paying(in_turn(
            value_tally(basis, test),
            statement_tally(basis, then),
        )),
        StmtForm::If(test, then, Some(other)) => {
            let tested = value_tally(basis, test);
            let first = statement_tally(basis, then);
            let second = statement_tally(basis, other);
            paying(in_turn(tested, one_of(first, second)))
        }
        StmtForm::Loop(head, first, test, third, body) => {
            let opened = statements_tally(basis, first.as_slice());
            let tested = test_tally(basis, test);
            let closed = statements_tally(basis, third.as_slice());
            let turned = statement_tally(basis, body);
            loop_tally(
                head.keyword,
                turns_of(basis, head.number),
                opened,
                tested,
                closed,
                turned,
            )
        }
        StmtForm::Switch(_, value, _, body) => paying(in_turn(
            value_tally(basis, value),
            statement_tally(basis, body),
        )),
        StmtForm::Return(_, value) => return_tally(basis, value),
        StmtForm::Break | StmtForm::Continue | StmtForm::Empty => some_steps(1),
        StmtForm::Static(_) | StmtForm::Mark(_) => no_tally(),
    }
}

/// The tally of statements, one after the other.
#[cycle(statements)]
pub(crate) fn statements_tally(basis: &Basis<'_, '_>, all: &[Stmt]) -> Tally
    requires structures { AreWholeStructures (plain_program basis.now.program.now).structures }
    ensures { result ≡ statements_tally (counting_by basis.now) (plain_statements all.now) }
{
    let mut total = no_tally();
    for s in all {
        total = in_turn(total, statement_tally(basis, s));
    }
    total
}

/// The tally of a loop's test.
pub(crate) fn test_tally(basis: &Basis<'_, '_>, test: &Option<Value>) -> Tally
    ensures { result ≡ test_tally (counting_by basis.now) (option_map plain_value test.now) }
{
    match test {
        Some(value) => value_tally(basis, value),
        None => some_steps(1),
    }
}

/// The tally of `return`.
fn return_tally(basis: &Basis<'_, '_>, value: &Option<Value>) -> Tally
    ensures { result ≡ return_tally (counting_by basis.now) (option_map plain_value value.now) }
{
    match value {
        Some(value) => paying(value_tally(basis, value)),
        None => some_steps(1),
    }
}

/// The tally of a loop, by its turns and those of its first clause, its test, its third clause and its body.
#[tactic(auto, unfolding(crate::specs::private::Walks::loop_tally))]
fn loop_tally(
    keyword: LoopKeyword,
    turns: u64,
    first: Tally,
    test: Tally,
    third: Tally,
    body: Tally,
) -> Tally
    ensures { result ≡ loop_tally keyword turns first test third body }
{
    match keyword {
        LoopKeyword::While | LoopKeyword::For => {
            let tested = in_turn(test, as_often(turns, test));
            let turned = as_often(turns, in_turn(body, third));
            paying(in_turn(first, in_turn(tested, turned)))
        }
        LoopKeyword::Do => {
            let turned = as_often(turns, in_turn(body, in_turn(third, test)));
            paying(in_turn(first, turned))
        }
    }
}
