//! Statements of their parts, of which some may be refused.

ghost use Rattle.std.specs.Prelude.{◌≡◌, [], Some, option_map, IfOk};
ghost use Rattle.p10_core.specs.Typed.{break, continue, mark};
ghost use Rattle.p10_core.specs.Views.{plain_value, plain_statement};
ghost use Rattle.p10_elabx.specs.First.{only_first};
ghost use Rattle.p10_elabs.specs.Expressions.{statement_added};
ghost use Rattle.p10_elabs.specs.Locals.{Local as PlainLocal};
ghost use Rattle.p10_elabs.specs.LocalViews.{done_as, plain_local, plain_items, plain_labelled};
ghost use Rattle.p10_elabs.specs.Statements.{block_of, if_of, if_else_of, loop_of, tested_loop, jump, pragma_done, switch_of};
ghost use Rattle.p10_elabs.specs.private.Labels.{labelled_where};

use crate::both::{both, kept};
use crate::labels::{Labelled, listed};
use crate::local::Local;
use p10_base::{At, ListBuf, SubsetCode};
use p10_core::{Clauses, Labels, LoopHead, MarkKind, Stmt, Value};
use std::alloc::{AllocError, Global};

/// Statements in braces.
#[tactic(auto, using(crate::proofs::PieceRows::listed))]
pub(crate) fn block_of(at: At, items: Option<Vec<Stmt>>) -> Option<Stmt>
    ensures { option_map plain_statement result ≡ block_of at (plain_items items) }
{
    match items {
        None => None,
        Some(items) => Some(Stmt::block(at, items)),
    }
}

/// `if` without `else`.
pub(crate) fn if_of(
    alloc: Global,
    at: At,
    test: Option<Value>,
    then: Option<Stmt>,
) -> Result<Option<Stmt>, AllocError>
    ensures { IfOk result (λ made. option_map plain_statement made ≡ if_of at (option_map plain_value test) (option_map plain_statement then)) }
{
    match both(test, then) {
        Some((test, then)) => {
            let made = Stmt::if_then(alloc, at, test, then)?;
            Ok(Some(made))
        }
        None => Ok(None),
    }
}

/// `if` with `else`.
pub(crate) fn if_else_of(
    alloc: Global,
    at: At,
    test: Option<Value>,
    then: Option<Stmt>,
    otherwise: Option<Stmt>,
) -> Result<Option<Stmt>, AllocError>
    ensures { IfOk result (λ made. option_map plain_statement made ≡ if_else_of at (option_map plain_value test) (option_map plain_statement then) (option_map plain_statement otherwise)) }
{
    let most = both(test, then);
    match both(most, otherwise) {
        Some((most, otherwise)) => {
            let (test, then) = most;
            let made = Stmt::if_else(alloc, at, test, then, otherwise)?;
            Ok(Some(made))
        }
        None => Ok(None),
    }
}

/// The clauses of a `for` that aren't refused: its first one, its test and its third one.
pub(crate) type FoundClauses = (Option<Vec<Stmt>>, Option<Option<Value>>, Option<Vec<Stmt>>);

/// A loop.
pub(crate) fn loop_of(
    alloc: Global,
    at: At,
    head: LoopHead,
    clauses: FoundClauses,
    body: Option<Stmt>,
) -> Result<Option<Stmt>, AllocError>
    ensures { IfOk result (λ made. option_map plain_statement made ≡ loop_of at head (plain_items clauses.0) (option_map (λ o. option_map plain_value o) clauses.1) (plain_items clauses.2) (option_map plain_statement body)) }
{
    let (first, test, third) = clauses;
    let start = both(first, test);
    let most = both(start, third);
    match both(most, body) {
        Some((most, body)) => {
            let (start, third) = most;
            let (first, test) = start;
            let clauses = Clauses { first, test, third };
            let made = Stmt::loops(alloc, at, head, clauses, body)?;
            Ok(Some(made))
        }
        None => Ok(None),
    }
}

/// A loop with a test alone.
pub(crate) fn tested_loop(
    alloc: Global,
    at: At,
    head: LoopHead,
    test: Option<Value>,
    body: Option<Stmt>,
) -> Result<Option<Stmt>, AllocError>
    ensures { IfOk result (λ made. option_map plain_statement made ≡ tested_loop at head (option_map plain_value test) (option_map plain_statement body)) }
{
    match both(test, body) {
        Some((test, body)) => {
            let made = Stmt::loops(alloc, at, head, test_alone(alloc, test), body)?;
            Ok(Some(made))
        }
        None => Ok(None),
    }
}

/// The clauses of a loop with a test alone.
fn test_alone(alloc: Global, test: Value) -> Clauses
    ensures first { result.first.items ≡ [] }
    ensures test { option_map plain_value result.test ≡ Some (plain_value test) }
    ensures third { result.third.items ≡ [] }
{
    Clauses {
        first: Vec::new(alloc),
        test: Some(test),
        third: Vec::new(alloc),
    }
}

/// A statement more, which may be refused.
pub(crate) fn statement_added(
    items: Option<Vec<Stmt>>,
    one: Option<Stmt>,
) -> Result<Option<Vec<Stmt>>, AllocError>
    ensures { IfOk result (λ made. plain_items made ≡ statement_added (plain_items items) (option_map plain_statement one)) }
{
    match both(items, one) {
        Some((mut items, one)) => {
            items.push(one)?;
            Ok(Some(items))
        }
        None => Ok(None),
    }
}

/// `break`, with something to leave or without.
pub(crate) fn break_done(local: &mut Local<'_>, may: bool, at: At) -> Option<Stmt>
    ensures { done_as (option_map plain_statement result) local.new ≡ jump only_first may at break (plain_local local.old) }
{
    if may {
        Some(Stmt::breaks(at))
    } else {
        local.refuse_where(true, SubsetCode::BadJump, at);
        None
    }
}

/// `continue`, with a loop to go on with or without.
pub(crate) fn continue_done(local: &mut Local<'_>, may: bool, at: At) -> Option<Stmt>
    ensures { done_as (option_map plain_statement result) local.new ≡ jump only_first may at continue (plain_local local.old) }
{
    if may {
        Some(Stmt::continues(at))
    } else {
        local.refuse_where(true, SubsetCode::BadJump, at);
        None
    }
}

/// A pragma where items stand: in the body of `main` it is judged with all of them, and elsewhere it is misplaced.
pub(crate) fn pragma_done(
    local: &mut Local<'_>,
    in_main: bool,
    at: At,
    kind: MarkKind,
) -> Option<Stmt>
    ensures { done_as (option_map plain_statement result) local.new ≡ pragma_done only_first in_main at (mark kind) (plain_local local.old) }
{
    if in_main {
        Some(Stmt::mark(at, kind))
    } else {
        local.refuse_where(true, SubsetCode::MisplacedPragma, at);
        None
    }
}

/// A label, where it may stand, with the statement after it.
pub(crate) fn labelled(local: &mut Local<'_>, may: bool, at: At, made: Option<Stmt>) -> Option<Stmt>
    ensures { done_as (option_map plain_statement result) local.new ≡ labelled_where only_first may at (done_as (option_map plain_statement made) local.old) }
{
    local.refuse_where(!may, SubsetCode::BadJump, at);
    kept(may, made)
}

/// A `switch`.
pub(crate) fn switch_of(
    alloc: Global,
    at: At,
    keyword: At,
    value: Option<Value>,
    labels: Labelled,
    body: Option<Stmt>,
) -> Result<Option<Stmt>, AllocError>
    ensures { IfOk result (λ made. (l : PlainLocal) → option_map plain_statement made ≡ switch_of at keyword (option_map plain_value value) (plain_labelled labels l) (option_map plain_statement body)) }
{
    let Labelled { cases, otherwise } = labels;
    let most = both(value, listed(cases));
    match both(most, body) {
        Some((most, body)) => {
            let (value, cases) = most;
            let labels = Labels {
                cases: ListBuf::of(cases),
                otherwise,
            };
            let made = Stmt::switch(alloc, at, keyword.span, value, labels, body)?;
            Ok(Some(made))
        }
        None => Ok(None),
    }
}
