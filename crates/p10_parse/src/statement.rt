//! Statements (C99 6.8).

ghost use Rattle.std.specs.Prelude.{◌≡◌, [], drop, map, Some, None, IfOk, OnOk};
ghost use Rattle.std.specs.Result.{IsErrOf};
ghost use Rattle.p10_syn.specs.Declaring.{after_statement};
ghost use Rattle.p10_syn.specs.Built.{bare_of, bare_optional_of};
ghost use Rattle.p10_syn.specs.BuiltStatements.{bare_statement_of};
ghost use Rattle.p10_pexpr.specs.declared.trouble.Trouble.TheVariants.{Refused};
ghost use Rattle.p10_pexpr.specs.Reading.{readers};
ghost use Rattle.p10_parse.specs.ExternalReading.{builders};
ghost use Rattle.p10_parse.specs.StatementReading.{block_at, else_at, if_then_at, if_at, switch_at, while_at, do_at, for_test_at, for_step_at, for_at, case_at, default_at, labelled_at, label_at, statement_by as statement_begun, item_at};

use crate::declaration::declaration;
use crate::part::{
    do_while, evaluate, give_back, go_on, goto, leave, optional_then, start, test, value_then,
};
use crate::stopping::{push_one, stopped, stopped_after_three, stopped_after_two};
use crate::way::{Way, begins_declaration};
use p10_pexpr::{Cursor, Scope, Trouble};
use p10_syn::{Expr, Sign, Stmt};
use std::alloc::Global;

/// Reads a statement.
#[cycle(stating)]
#[tactic(auto, using(crate::proofs::ReadingSteps::statement_nothing, crate::proofs::ReadingSteps::statement_way))]
fn statement<'s>(
    alloc: Global,
    budget: usize,
    scope: &mut Scope<'s>,
    cursor: &mut Cursor<'_, 's>,
) -> Result<Stmt<'s>, Trouble>
    ensures ok { IfOk result (λ t. (builders budget).statement scope.old cursor.old ≡ Some (bare_statement_of t, cursor.new)) }
    ensures refused { IsErrOf result Refused → (builders budget).statement scope.old cursor.old ≡ None }
    ensures scope { OnOk result (scope.new ≡ scope.old) }
{
    if budget == 0 {
        return Err(Trouble::Refused);
    }
    let way = Way::at(cursor);
    statement_by(alloc, budget - 1, scope, way, cursor)
}

/// Reads the statement that begins in this way.
#[cycle(stating)]
fn statement_by<'s>(
    alloc: Global,
    budget: usize,
    scope: &mut Scope<'s>,
    way: Way,
    cursor: &mut Cursor<'_, 's>,
) -> Result<Stmt<'s>, Trouble>
    ensures ok { IfOk result (λ t. statement_begun (readers budget) (builders budget) scope.old way cursor.old ≡ Some (bare_statement_of t, cursor.new)) }
    ensures refused { IsErrOf result Refused → statement_begun (readers budget) (builders budget) scope.old way cursor.old ≡ None }
    ensures scope { OnOk result (scope.new ≡ scope.old) }
{
    match way {
        Way::Ends => {
            cursor.advance();
            Ok(p10_make::empty())
        }
        Way::Braces => block(alloc, budget, scope, cursor),
        Way::Ifs => if_statement(alloc, budget, scope, cursor),
        Way::Switches => switch(alloc, budget, scope, cursor),
        Way::Whiles => while_loop(alloc, budget, scope, cursor),
        Way::Dos => do_loop(alloc, budget, scope, cursor),
        Way::Fors => for_loop(alloc, budget, scope, cursor),
        Way::Cases => case(alloc, budget, scope, cursor),
        Way::Defaults => default(alloc, budget, scope, cursor),
        Way::Gotos => goto(cursor),
        Way::Breaks => leave(cursor),
        Way::Continues => go_on(cursor),
        Way::Returns => give_back(alloc, budget, scope, cursor),
        Way::Labels => label(alloc, budget, scope, cursor),
        Way::Values => evaluate(alloc, budget, scope, cursor),
    }
}

/// Reads a block.
#[cycle(stating)]
fn block<'s>(
    alloc: Global,
    budget: usize,
    scope: &mut Scope<'s>,
    cursor: &mut Cursor<'_, 's>,
) -> Result<Stmt<'s>, Trouble>
    ensures ok { IfOk result (λ t. block_at (readers budget) (builders budget) scope.old (drop 1 cursor.old) ≡ Some (bare_statement_of t, cursor.new)) }
    ensures refused { IsErrOf result Refused → block_at (readers budget) (builders budget) scope.old (drop 1 cursor.old) ≡ None }
    ensures scope { OnOk result (scope.new ≡ scope.old) }
{
    cursor.advance();
    let all = items(alloc, budget, scope, cursor)?;
    Ok(p10_make::block(all))
}

/// Reads an `if`.
#[cycle(stating)]
fn if_statement<'s>(
    alloc: Global,
    budget: usize,
    scope: &mut Scope<'s>,
    cursor: &mut Cursor<'_, 's>,
) -> Result<Stmt<'s>, Trouble>
    ensures ok { IfOk result (λ t. if_at (readers budget) (builders budget) scope.old (drop 1 cursor.old) ≡ Some (bare_statement_of t, cursor.new)) }
    ensures refused { IsErrOf result Refused → if_at (readers budget) (builders budget) scope.old (drop 1 cursor.old) ≡ None }
    ensures scope { OnOk result (scope.new ≡ scope.old) }
{
    cursor.advance();
    let test = test(alloc, budget, scope, cursor)?;
    if_then(alloc, budget, scope, test, cursor)
}

/// Reads an `if` after its test.
#[cycle(stating)]
fn if_then<'s>(
    alloc: Global,
    budget: usize,
    scope: &mut Scope<'s>,
    test: Expr<'s>,
    cursor: &mut Cursor<'_, 's>,
) -> Result<Stmt<'s>, Trouble>
    ensures ok { IfOk result (λ t. if_then_at (readers budget) (builders budget) scope.old (bare_of test.entry) cursor.old ≡ Some (bare_statement_of t, cursor.new)) }
    ensures refused { IsErrOf result Refused → if_then_at (readers budget) (builders budget) scope.old (bare_of test.entry) cursor.old ≡ None }
    ensures scope { OnOk result (scope.new ≡ scope.old) }
{
    match statement(alloc, budget, scope, cursor) {
        Ok(then) => if_else(alloc, budget, scope, test, then, cursor),
        Err(trouble) => stopped(test, trouble),
    }
}

/// Reads the `else` of an `if`, where one stands next.
#[cycle(stating)]
fn if_else<'s>(
    alloc: Global,
    budget: usize,
    scope: &mut Scope<'s>,
    test: Expr<'s>,
    then: Stmt<'s>,
    cursor: &mut Cursor<'_, 's>,
) -> Result<Stmt<'s>, Trouble>
    ensures ok { IfOk result (λ t. else_at (readers budget) (builders budget) scope.old (bare_of test.entry) (bare_statement_of then.entry) cursor.old ≡ Some (bare_statement_of t, cursor.new)) }
    ensures refused { IsErrOf result Refused → else_at (readers budget) (builders budget) scope.old (bare_of test.entry) (bare_statement_of then.entry) cursor.old ≡ None }
    ensures scope { OnOk result (scope.new ≡ scope.old) }
{
    if cursor.heads(Sign::Else) {
        cursor.advance();
        match statement(alloc, budget, scope, cursor) {
            Ok(other) => match p10_make::if_else(alloc, test, then, other) {
                Ok(made) => Ok(made),
                Err(_) => Err(Trouble::Memory),
            },
            Err(trouble) => stopped_after_two(test, then, trouble),
        }
    } else {
        match p10_make::if_then(alloc, test, then) {
            Ok(made) => Ok(made),
            Err(_) => Err(Trouble::Memory),
        }
    }
}

/// Reads a `switch`.
#[cycle(stating)]
fn switch<'s>(
    alloc: Global,
    budget: usize,
    scope: &mut Scope<'s>,
    cursor: &mut Cursor<'_, 's>,
) -> Result<Stmt<'s>, Trouble>
    ensures ok { IfOk result (λ t. switch_at (readers budget) (builders budget) scope.old (drop 1 cursor.old) ≡ Some (bare_statement_of t, cursor.new)) }
    ensures refused { IsErrOf result Refused → switch_at (readers budget) (builders budget) scope.old (drop 1 cursor.old) ≡ None }
    ensures scope { OnOk result (scope.new ≡ scope.old) }
{
    cursor.advance();
    let test = test(alloc, budget, scope, cursor)?;
    match statement(alloc, budget, scope, cursor) {
        Ok(body) => match p10_make::switch(alloc, test, body) {
            Ok(made) => Ok(made),
            Err(_) => Err(Trouble::Memory),
        },
        Err(trouble) => stopped(test, trouble),
    }
}

/// Reads a `while`.
#[cycle(stating)]
fn while_loop<'s>(
    alloc: Global,
    budget: usize,
    scope: &mut Scope<'s>,
    cursor: &mut Cursor<'_, 's>,
) -> Result<Stmt<'s>, Trouble>
    ensures ok { IfOk result (λ t. while_at (readers budget) (builders budget) scope.old (drop 1 cursor.old) ≡ Some (bare_statement_of t, cursor.new)) }
    ensures refused { IsErrOf result Refused → while_at (readers budget) (builders budget) scope.old (drop 1 cursor.old) ≡ None }
    ensures scope { OnOk result (scope.new ≡ scope.old) }
{
    cursor.advance();
    let test = test(alloc, budget, scope, cursor)?;
    match statement(alloc, budget, scope, cursor) {
        Ok(body) => match p10_make::while_loop(alloc, test, body) {
            Ok(made) => Ok(made),
            Err(_) => Err(Trouble::Memory),
        },
        Err(trouble) => stopped(test, trouble),
    }
}

/// Reads a `do`.
#[cycle(stating)]
fn do_loop<'s>(
    alloc: Global,
    budget: usize,
    scope: &mut Scope<'s>,
    cursor: &mut Cursor<'_, 's>,
) -> Result<Stmt<'s>, Trouble>
    ensures ok { IfOk result (λ t. do_at (readers budget) (builders budget) scope.old (drop 1 cursor.old) ≡ Some (bare_statement_of t, cursor.new)) }
    ensures refused { IsErrOf result Refused → do_at (readers budget) (builders budget) scope.old (drop 1 cursor.old) ≡ None }
    ensures scope { OnOk result (scope.new ≡ scope.old) }
{
    cursor.advance();
    match statement(alloc, budget, scope, cursor) {
        Ok(body) => do_while(alloc, budget, scope, body, cursor),
        Err(trouble) => Err(trouble),
    }
}

/// Reads a `for`. What its first part declares is in scope in it.
#[cycle(stating)]
fn for_loop<'s>(
    alloc: Global,
    budget: usize,
    scope: &mut Scope<'s>,
    cursor: &mut Cursor<'_, 's>,
) -> Result<Stmt<'s>, Trouble>
    ensures ok { IfOk result (λ t. for_at (readers budget) (builders budget) scope.old (drop 1 cursor.old) ≡ Some (bare_statement_of t, cursor.new)) }
    ensures refused { IsErrOf result Refused → for_at (readers budget) (builders budget) scope.old (drop 1 cursor.old) ≡ None }
    ensures scope { OnOk result (scope.new ≡ scope.old) }
{
    cursor.advance();
    cursor.expect(Sign::Open)?;
    let count = scope.count();
    match start(alloc, budget, scope, cursor) {
        Ok(start) => match for_test(alloc, budget, scope, start, cursor) {
            Ok(all) => {
                scope.forget(count);
                Ok(all)
            }
            Err(trouble) => Err(trouble),
        },
        Err(trouble) => Err(trouble),
    }
}

/// Reads a `for` after its first part.
#[cycle(stating)]
fn for_test<'s>(
    alloc: Global,
    budget: usize,
    scope: &mut Scope<'s>,
    start: Stmt<'s>,
    cursor: &mut Cursor<'_, 's>,
) -> Result<Stmt<'s>, Trouble>
    ensures ok { IfOk result (λ t. for_test_at (readers budget) (builders budget) scope.old (bare_statement_of start.entry) cursor.old ≡ Some (bare_statement_of t, cursor.new)) }
    ensures refused { IsErrOf result Refused → for_test_at (readers budget) (builders budget) scope.old (bare_statement_of start.entry) cursor.old ≡ None }
    ensures scope { OnOk result (scope.new ≡ scope.old) }
{
    match optional_then(alloc, budget, scope, Sign::Semicolon, cursor) {
        Ok(test) => for_step(alloc, budget, scope, start, test, cursor),
        Err(trouble) => stopped(start, trouble),
    }
}

/// Reads a `for` after its test.
#[cycle(stating)]
fn for_step<'s>(
    alloc: Global,
    budget: usize,
    scope: &mut Scope<'s>,
    start: Stmt<'s>,
    test: Option<Expr<'s>>,
    cursor: &mut Cursor<'_, 's>,
) -> Result<Stmt<'s>, Trouble>
    ensures ok { IfOk result (λ t. for_step_at (readers budget) (builders budget) scope.old (bare_statement_of start.entry) (bare_optional_of test.entry) cursor.old ≡ Some (bare_statement_of t, cursor.new)) }
    ensures refused { IsErrOf result Refused → for_step_at (readers budget) (builders budget) scope.old (bare_statement_of start.entry) (bare_optional_of test.entry) cursor.old ≡ None }
    ensures scope { OnOk result (scope.new ≡ scope.old) }
{
    let step = match optional_then(alloc, budget, scope, Sign::Close, cursor) {
        Ok(step) => step,
        Err(trouble) => return stopped_after_two(start, test, trouble),
    };
    match statement(alloc, budget, scope, cursor) {
        Ok(body) => match p10_make::for_loop(alloc, start, test, step, body) {
            Ok(made) => Ok(made),
            Err(_) => Err(Trouble::Memory),
        },
        Err(trouble) => stopped_after_three(start, test, step, trouble),
    }
}

/// Reads a `case` and its statement.
#[cycle(stating)]
fn case<'s>(
    alloc: Global,
    budget: usize,
    scope: &mut Scope<'s>,
    cursor: &mut Cursor<'_, 's>,
) -> Result<Stmt<'s>, Trouble>
    ensures ok { IfOk result (λ t. case_at (readers budget) (builders budget) scope.old (drop 1 cursor.old) ≡ Some (bare_statement_of t, cursor.new)) }
    ensures refused { IsErrOf result Refused → case_at (readers budget) (builders budget) scope.old (drop 1 cursor.old) ≡ None }
    ensures scope { OnOk result (scope.new ≡ scope.old) }
{
    cursor.advance();
    let value = value_then(alloc, budget, scope, 3, Sign::Colon, cursor)?;
    match statement(alloc, budget, scope, cursor) {
        Ok(body) => match p10_make::case(alloc, value, body) {
            Ok(made) => Ok(made),
            Err(_) => Err(Trouble::Memory),
        },
        Err(trouble) => stopped(value, trouble),
    }
}

/// Reads a `default` and its statement.
#[cycle(stating)]
fn default<'s>(
    alloc: Global,
    budget: usize,
    scope: &mut Scope<'s>,
    cursor: &mut Cursor<'_, 's>,
) -> Result<Stmt<'s>, Trouble>
    ensures ok { IfOk result (λ t. default_at (readers budget) (builders budget) scope.old (drop 1 cursor.old) ≡ Some (bare_statement_of t, cursor.new)) }
    ensures refused { IsErrOf result Refused → default_at (readers budget) (builders budget) scope.old (drop 1 cursor.old) ≡ None }
    ensures scope { OnOk result (scope.new ≡ scope.old) }
{
    cursor.advance();
    cursor.expect(Sign::Colon)?;
    match statement(alloc, budget, scope, cursor) {
        Ok(body) => match p10_make::default(alloc, body) {
            Ok(made) => Ok(made),
            Err(_) => Err(Trouble::Memory),
        },
        Err(trouble) => Err(trouble),
    }
}

/// Reads a label and its statement.
#[cycle(stating)]
fn label<'s>(
    alloc: Global,
    budget: usize,
    scope: &mut Scope<'s>,
    cursor: &mut Cursor<'_, 's>,
) -> Result<Stmt<'s>, Trouble>
    ensures ok { IfOk result (λ t. label_at (readers budget) (builders budget) scope.old cursor.old ≡ Some (bare_statement_of t, cursor.new)) }
    ensures refused { IsErrOf result Refused → label_at (readers budget) (builders budget) scope.old cursor.old ≡ None }
    ensures scope { OnOk result (scope.new ≡ scope.old) }
{
    let name = cursor.name()?;
    labelled(alloc, budget, scope, name, cursor)
}

/// Reads a label and its statement after the name.
#[cycle(stating)]
fn labelled<'s>(
    alloc: Global,
    budget: usize,
    scope: &mut Scope<'s>,
    name: &'s [u8],
    cursor: &mut Cursor<'_, 's>,
) -> Result<Stmt<'s>, Trouble>
    ensures ok { IfOk result (λ t. labelled_at (readers budget) (builders budget) scope.old name.now cursor.old ≡ Some (bare_statement_of t, cursor.new)) }
    ensures refused { IsErrOf result Refused → labelled_at (readers budget) (builders budget) scope.old name.now cursor.old ≡ None }
    ensures scope { OnOk result (scope.new ≡ scope.old) }
{
    cursor.expect(Sign::Colon)?;
    match statement(alloc, budget, scope, cursor) {
        Ok(body) => match p10_make::label(alloc, name, body) {
            Ok(made) => Ok(made),
            Err(_) => Err(Trouble::Memory),
        },
        Err(trouble) => Err(trouble),
    }
}

/// Reads the items of a block, and the `}`. Their names are in scope up to it.
#[cycle(stating)]
pub fn items<'s>(
    alloc: Global,
    budget: usize,
    scope: &mut Scope<'s>,
    cursor: &mut Cursor<'_, 's>,
) -> Result<Vec<Stmt<'s>>, Trouble>
    ensures ok { IfOk result (λ t. (builders budget).items scope.old [] cursor.old ≡ Some (map bare_statement_of t.items, cursor.new)) }
    ensures refused { IsErrOf result Refused → (builders budget).items scope.old [] cursor.old ≡ None }
    ensures scope { OnOk result (scope.new ≡ scope.old) }
{
    let mut all = Vec::new(alloc);
    match all_items(alloc, budget, scope, &mut all, cursor) {
        Ok(()) => Ok(all),
        Err(trouble) => stopped(all, trouble),
    }
}

/// Reads the items of a block after those that were read, and the `}`.
#[cycle(stating)]
#[tactic(auto, using(crate::proofs::ListSteps::items_stop, crate::proofs::ListSteps::items_fail))]
fn all_items<'s>(
    alloc: Global,
    budget: usize,
    scope: &mut Scope<'s>,
    all: &mut Vec<Stmt<'s>>,
    cursor: &mut Cursor<'_, 's>,
) -> Result<(), Trouble>
    ensures ok { OnOk result ((builders budget).items scope.old (map bare_statement_of all.old.items) cursor.old ≡ Some (map bare_statement_of all.new.items, cursor.new)) }
    ensures refused { IsErrOf result Refused → (builders budget).items scope.old (map bare_statement_of all.old.items) cursor.old ≡ None }
    ensures scope { OnOk result (scope.new ≡ scope.old) }
{
    let count = scope.count();
    let mut fuel = budget;
    while fuel > 0 {
        if cursor.heads(Sign::CloseBrace) {
            cursor.advance();
            scope.forget(count);
            return Ok(());
        }
        fuel -= 1;
        match item(alloc, fuel, scope, cursor) {
            Ok(next) => push_one(all, next)?,
            Err(trouble) => return Err(trouble),
        }
    }
    Err(Trouble::Refused)
}

/// Reads an item of a block: a p10 pragma, a declaration or a statement.
#[cycle(stating)]
#[tactic(auto, using(crate::proofs::ReadingSteps::item_mark, crate::proofs::ReadingSteps::item_declared, crate::proofs::ReadingSteps::item_stated))]
fn item<'s>(
    alloc: Global,
    budget: usize,
    scope: &mut Scope<'s>,
    cursor: &mut Cursor<'_, 's>,
) -> Result<Stmt<'s>, Trouble>
    ensures ok { IfOk result (λ t. item_at (readers budget) (builders budget) scope.old cursor.old ≡ Some (bare_statement_of t, cursor.new)) }
    ensures refused { IsErrOf result Refused → item_at (readers budget) (builders budget) scope.old cursor.old ≡ None }
    ensures scope { IfOk result (λ t. scope.new ≡ after_statement scope.old (bare_statement_of t)) }
{
    if let Some(text) = cursor.next_mark() {
        cursor.advance();
        return Ok(p10_make::mark(text));
    }
    if begins_declaration(scope, cursor) {
        let all = declaration(alloc, budget, scope, cursor)?;
        Ok(p10_make::declares(all))
    } else {
        statement(alloc, budget, scope, cursor)
    }
}
