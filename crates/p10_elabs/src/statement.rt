//! Statements (C99 6.8).

ghost use Rattle.std.specs.Prelude.{◌≡◌, IfOk, map, option_map};
ghost use Rattle.p10_core.specs.Views.{plain_value, plain_statement};
ghost use Rattle.p10_syn.specs.Trees.{statement_row, Block, If, Switch, While, Do};
ghost use Rattle.p10_syn.specs.Built.{expression_of};
ghost use Rattle.p10_syn.specs.BuiltStatements.{statement_of};
ghost use Rattle.p10_elabx.specs.First.{only_first};
ghost use Rattle.p10_elabs.specs.FrameViews.{plain_frame};
ghost use Rattle.p10_elabs.specs.ItemViews.{plain_block};
ghost use Rattle.p10_elabs.specs.Locals.{opened};
ghost use Rattle.p10_elabs.specs.LocalViews.{plain_local, done_as};
ghost use Rattle.p10_elabs.specs.Statements.{kind_of, part_ended, done, items_done, switched_done};
ghost use Rattle.p10_elabs.specs.private.Steps.{kept_item, item_done, switched_item, plain_body, block_body, body_done, settled, settled_body};
ghost use Rattle.p10_elabs.specs.private.StepViews.{plain_switched, body_as};

use crate::cases::labels_noted;
use crate::clauses::expression_statement;
use crate::declarations::declared_into;
use crate::expressions::{constant_done, switch_done, test_done};
use crate::frame::Frame;
use crate::items::{Items, no_items, with_statement};
use crate::kind::Kind;
use crate::labels::Labelled;
use crate::local::Local;
use crate::marks::{mark_of, test_kind};
use crate::pieces::{
    block_of, break_done, continue_done, if_else_of, if_of, labelled, loop_of, pragma_done,
    switch_of, tested_loop,
};
use crate::returns::return_done;
use crate::round::Round;
use crate::starts::{clauses_done, declared_at_labels, for_kind};
use crate::switches::{Switched, next_place, no_labels, nothing_switched};
use p10_base::{At, SubsetCode};
use p10_core::{LoopKeyword, Stmt as Typed, Value};
use p10_elabd::Site;
use p10_syn::{Expr, Stmt};
use std::alloc::AllocError;

/// A statement, if it isn't refused.
#[cycle(statements)]
fn statement<'s>(
    s: &Stmt<'s>,
    frame: &Frame<'_, 's>,
    round: Round,
    local: &mut Local<'s>,
) -> Result<Option<Typed>, AllocError>
    ensures { IfOk result (λ made. done_as (option_map plain_statement made) local.new ≡ done only_first (plain_frame frame.now) round (plain_local local.old) (statement_of s.now)) }
{
    match s {
        Stmt::Empty(at) => Ok(Some(Typed::empty(*at))),
        Stmt::Expr(at, e) => {
            let made = expression_statement(frame.alloc, local, *at, e)?;
            Ok(made)
        }
        Stmt::Block(at, all) => {
            let made = block(all, frame, round, local, *at)?;
            Ok(made)
        }
        Stmt::If(at, e, body) => {
            let made = if_done(body, frame, round, local, *at, e)?;
            Ok(made)
        }
        Stmt::IfElse(at, e, first, second) => {
            local.open()?;
            let test = test_done(frame.alloc, local, e)?;
            let inner = round.inside();
            let first = part(first, frame, inner, local)?;
            let second = part(second, frame, inner, local)?;
            local.close();
            let made = if_else_of(frame.alloc, *at, test, first, second)?;
            Ok(made)
        }
        Stmt::Switch(at, keyword, e, body) => {
            let made = whole_switch(body, frame, round, local, (*at, *keyword), e)?;
            Ok(made)
        }
        Stmt::While(at, keyword, e, body) => {
            let (_, made) = while_done(body, frame, round, local, (*at, *keyword), e)?;
            Ok(made)
        }
        Stmt::Do(at, keyword, body, e) => {
            let made = do_done(body, frame, round, local, (*at, *keyword), e)?;
            Ok(made)
        }
        Stmt::For(at, keyword, start, test, step, body) => {
            let head = local.begin_loop(LoopKeyword::For, *keyword)?;
            local.open()?;
            let clauses = clauses_done(frame, local, start, test, step)?;
            let inner = round.inside_loop();
            let body = part(body, frame, inner, local)?;
            local.close();
            let made = loop_of(frame.alloc, *at, head, clauses, body)?;
            Ok(made)
        }
        Stmt::Case(at, e, inner) => {
            constant_done(frame.alloc, local, round, e)?;
            let made = statement(inner, frame, round, local)?;
            Ok(labelled(local, round.at_labels, *at, made))
        }
        Stmt::Default(at, inner) => {
            let made = statement(inner, frame, round, local)?;
            Ok(labelled(local, round.at_labels, *at, made))
        }
        Stmt::Label(at, _, inner) => {
            let made = statement(inner, frame, round, local)?;
            Ok(labelled(local, false, *at, made))
        }
        Stmt::Goto(at, _) => {
            local.refuse_where(true, SubsetCode::BadJump, *at);
            Ok(None)
        }
        Stmt::Break(at) => Ok(break_done(local, round.in_loop || round.in_switch, *at)),
        Stmt::Continue(at) => Ok(continue_done(local, round.in_loop, *at)),
        Stmt::Return(at, keyword, e) => return_done(frame, local, *at, *keyword, e),
        Stmt::Decl(d) => declared_at_labels(frame, local, d),
        Stmt::Mark(at, text) => Ok(pragma_done(local, false, *at, mark_of(text))),
    }
}

/// A part of a statement, which is a block of its own.
#[cycle(statements)]
fn part<'s>(
    s: &Stmt<'s>,
    frame: &Frame<'_, 's>,
    round: Round,
    local: &mut Local<'s>,
) -> Result<Option<Typed>, AllocError>
    ensures { IfOk result (λ made. done_as (option_map plain_statement made) local.new ≡ part_ended (done only_first (plain_frame frame.now) round (opened (plain_local local.old)) (statement_of s.now))) }
{
    local.open()?;
    let made = statement(s, frame, round, local)?;
    local.close();
    Ok(made)
}

/// Statements in braces.
#[cycle(statements)]
fn block<'s>(
    all: &[Stmt<'s>],
    frame: &Frame<'_, 's>,
    round: Round,
    local: &mut Local<'s>,
    at: At,
) -> Result<Option<Typed>, AllocError>
    ensures { IfOk result (λ made. done_as (option_map plain_statement made) local.new ≡ done only_first (plain_frame frame.now) round (plain_local local.old) (Block at (statement_row (map statement_of all.now)))) }
{
    local.open()?;
    let items = items_done(
        all,
        frame,
        false,
        round.inside(),
        local,
        no_items(frame.alloc),
    )?;
    local.close();
    Ok(block_of(at, items.made))
}

/// `if` without `else`.
#[cycle(statements)]
fn if_done<'s>(
    body: &Stmt<'s>,
    frame: &Frame<'_, 's>,
    round: Round,
    local: &mut Local<'s>,
    at: At,
    e: &Expr<'s>,
) -> Result<Option<Typed>, AllocError>
    ensures { IfOk result (λ made. done_as (option_map plain_statement made) local.new ≡ done only_first (plain_frame frame.now) round (plain_local local.old) (If at (expression_of e.now) (statement_of body.now))) }
{
    local.open()?;
    let test = test_done(frame.alloc, local, e)?;
    let body = part(body, frame, round.inside(), local)?;
    local.close();
    let made = if_of(frame.alloc, at, test, body)?;
    Ok(made)
}

/// `while`, and what it is for the pragmas; where it and its keyword stand is given.
#[cycle(statements)]
fn while_done<'s>(
    body: &Stmt<'s>,
    frame: &Frame<'_, 's>,
    round: Round,
    local: &mut Local<'s>,
    places: (At, At),
    e: &Expr<'s>,
) -> Result<(Kind, Option<Typed>), AllocError>
    ensures kind { IfOk result (λ r. r.0 ≡ kind_of only_first (plain_local local.old) (While places.0 places.1 (expression_of e.now) (statement_of body.now))) }
    ensures made { IfOk result (λ r. done_as (option_map plain_statement r.1) local.new ≡ done only_first (plain_frame frame.now) round (plain_local local.old) (While places.0 places.1 (expression_of e.now) (statement_of body.now))) }
{
    let (at, keyword) = places;
    let head = local.begin_loop(LoopKeyword::While, keyword)?;
    local.open()?;
    let test = test_done(frame.alloc, local, e)?;
    let kind = test_kind(&test);
    let body = part(body, frame, round.inside_loop(), local)?;
    local.close();
    let made = tested_loop(frame.alloc, at, head, test, body)?;
    Ok((kind, made))
}

/// `do`; where it and its keyword stand is given.
#[cycle(statements)]
fn do_done<'s>(
    body: &Stmt<'s>,
    frame: &Frame<'_, 's>,
    round: Round,
    local: &mut Local<'s>,
    places: (At, At),
    e: &Expr<'s>,
) -> Result<Option<Typed>, AllocError>
    ensures { IfOk result (λ made. done_as (option_map plain_statement made) local.new ≡ done only_first (plain_frame frame.now) round (plain_local local.old) (Do places.0 places.1 (statement_of body.now) (expression_of e.now))) }
{
    let (at, keyword) = places;
    let head = local.begin_loop(LoopKeyword::Do, keyword)?;
    local.open()?;
    let body = part(body, frame, round.inside_loop(), local)?;
    let test = test_done(frame.alloc, local, e)?;
    local.close();
    let made = tested_loop(frame.alloc, at, head, test, body)?;
    Ok(made)
}

/// `switch`; where it and its keyword stand is given.
#[cycle(statements)]
fn whole_switch<'s>(
    body: &Stmt<'s>,
    frame: &Frame<'_, 's>,
    round: Round,
    local: &mut Local<'s>,
    places: (At, At),
    e: &Expr<'s>,
) -> Result<Option<Typed>, AllocError>
    ensures { IfOk result (λ made. done_as (option_map plain_statement made) local.new ≡ done only_first (plain_frame frame.now) round (plain_local local.old) (Switch places.0 places.1 (expression_of e.now) (statement_of body.now))) }
{
    let (at, keyword) = places;
    local.open()?;
    let value = switch_done(frame.alloc, local, e)?;
    let (labels, body) = switch_body(body, frame, round, local, &value)?;
    local.close();
    let made = switch_of(frame.alloc, at, keyword, value, labels, body)?;
    Ok(made)
}

/// The body of a `switch`, with its labels.
#[cycle(statements)]
fn switch_body<'s>(
    body: &Stmt<'s>,
    frame: &Frame<'_, 's>,
    round: Round,
    local: &mut Local<'s>,
    value: &Option<Value>,
) -> Result<(Labelled, Option<Typed>), AllocError>
    ensures { IfOk result (λ r. body_as r.0 r.1 (plain_local local.new) ≡ settled_body (body_done only_first (plain_frame frame.now) round (plain_local local.old) (option_map plain_value value.now) (statement_of body.now))) }
{
    match body {
        Stmt::Block(place, all) => {
            let made = switch_block(all, frame, round, local, value, *place)?;
            Ok(made)
        }
        Stmt::Empty(_)
        | Stmt::Expr(_, _)
        | Stmt::If(_, _, _)
        | Stmt::IfElse(_, _, _, _)
        | Stmt::Switch(_, _, _, _)
        | Stmt::While(_, _, _, _)
        | Stmt::Do(_, _, _, _)
        | Stmt::For(_, _, _, _, _, _)
        | Stmt::Case(_, _, _)
        | Stmt::Default(_, _)
        | Stmt::Label(_, _, _)
        | Stmt::Goto(_, _)
        | Stmt::Break(_)
        | Stmt::Continue(_)
        | Stmt::Return(_, _, _)
        | Stmt::Decl(_)
        | Stmt::Mark(_, _) => {
            let made = plain_body(body, frame, round, local)?;
            Ok(made)
        }
    }
}

/// The body of a `switch` that is a block; where it stands is given.
#[cycle(statements)]
fn switch_block<'s>(
    all: &[Stmt<'s>],
    frame: &Frame<'_, 's>,
    round: Round,
    local: &mut Local<'s>,
    value: &Option<Value>,
    place: At,
) -> Result<(Labelled, Option<Typed>), AllocError>
    ensures { IfOk result (λ r. body_as r.0 r.1 (plain_local local.new) ≡ settled_body (block_body only_first (plain_frame frame.now) round (plain_local local.old) (option_map plain_value value.now) place (statement_row (map statement_of all.now)))) }
{
    local.open()?;
    let start = nothing_switched(frame.alloc);
    let body = switched_done(all, frame, round.among_labels(), local, value, start)?;
    local.close();
    let Switched { items, labels } = body;
    Ok((labels, block_of(place, items.made)))
}

/// The body of a `switch` that isn't a block.
#[cycle(statements)]
fn plain_body<'s>(
    s: &Stmt<'s>,
    frame: &Frame<'_, 's>,
    round: Round,
    local: &mut Local<'s>,
) -> Result<(Labelled, Option<Typed>), AllocError>
    ensures { IfOk result (λ r. body_as r.0 r.1 (plain_local local.new) ≡ settled_body (plain_body only_first (plain_frame frame.now) round (plain_local local.old) (statement_of s.now))) }
{
    let made = part(s, frame, round.inside_switch(), local)?;
    Ok((no_labels(frame.alloc), made))
}

/// The items of the block of a `switch` after those before, each after its labels.
#[cycle(statements)]
fn switched_done<'s>(
    all: &[Stmt<'s>],
    frame: &Frame<'_, 's>,
    round: Round,
    local: &mut Local<'s>,
    value: &Option<Value>,
    before: Switched,
) -> Result<Switched, AllocError>
    ensures { IfOk result (λ w. plain_switched w (plain_local local.new) ≡ settled (switched_done only_first (plain_frame frame.now) round (option_map plain_value value.now) (plain_switched before (plain_local local.old)) (statement_row (map statement_of all.now)))) }
{
    let mut body = before;
    for s in all {
        body = switched_item(s, frame, round, local, value, body)?;
    }
    Ok(body)
}

/// An item of the block of a `switch` after those before, with its labels.
#[cycle(statements)]
fn switched_item<'s>(
    s: &Stmt<'s>,
    frame: &Frame<'_, 's>,
    round: Round,
    local: &mut Local<'s>,
    value: &Option<Value>,
    before: Switched,
) -> Result<Switched, AllocError>
    ensures { IfOk result (λ w. plain_switched w (plain_local local.new) ≡ settled (switched_item only_first (plain_frame frame.now) round (option_map plain_value value.now) (plain_switched before (plain_local local.old)) (statement_of s.now))) }
{
    let Switched { items, labels } = before;
    let place = next_place(&items)?;
    let labels = labels_noted(s, frame.alloc, local, place, value, labels)?;
    let made = statement(s, frame, round, local)?;
    let items = with_statement(items, Kind::Other, made)?;
    Ok(Switched { items, labels })
}

/// The items of a block, `all`, after those before, and what each is for the pragmas (C99 6.8.2). `in_main` says that they are items of
/// the body of `main`, which may be pragmas; `round` what stands round them. Where an item is refused, or a row holds in it, that stands
/// in what the body, `local`, has then.
///
/// # Errors
///
/// Out of memory.
#[cycle(statements)]
pub fn items_done<'s>(
    all: &[Stmt<'s>],
    frame: &Frame<'_, 's>,
    in_main: bool,
    round: Round,
    local: &mut Local<'s>,
    items: Items,
) -> Result<Items, AllocError>
    ensures { IfOk result (λ b. plain_block b (plain_local local.new) ≡ items_done only_first (plain_frame frame.now) in_main round (plain_block items (plain_local local.old)) (statement_row (map statement_of all.now))) }
{
    let mut items = items;
    for s in all {
        items = item_done(s, frame, in_main, round, local, items)?;
    }
    Ok(items)
}

/// An item of a block after those before.
#[cycle(statements)]
fn item_done<'s>(
    s: &Stmt<'s>,
    frame: &Frame<'_, 's>,
    in_main: bool,
    round: Round,
    local: &mut Local<'s>,
    items: Items,
) -> Result<Items, AllocError>
    ensures { IfOk result (λ b. plain_block b (plain_local local.new) ≡ item_done only_first (plain_frame frame.now) in_main round (plain_block items (plain_local local.old)) (statement_of s.now)) }
{
    match s {
        Stmt::Decl(d) => {
            let all = declared_into(d, frame, Site::InBlock, local, items)?;
            Ok(all)
        }
        Stmt::Mark(at, text) => {
            let mark = mark_of(text);
            let made = pragma_done(local, in_main, *at, mark);
            let all = with_statement(items, Kind::Mark(mark, *at), made)?;
            Ok(all)
        }
        Stmt::While(at, keyword, e, body) => {
            let (kind, made) = while_done(body, frame, round, local, (*at, *keyword), e)?;
            let all = with_statement(items, kind, made)?;
            Ok(all)
        }
        Stmt::For(_, _, start, test, step, _) => {
            let kind = for_kind(start, test, step);
            let all = kept_item(s, frame, round, local, items, kind)?;
            Ok(all)
        }
        Stmt::Return(_, _, _) => {
            let all = kept_item(s, frame, round, local, items, Kind::Return)?;
            Ok(all)
        }
        Stmt::Empty(_)
        | Stmt::Expr(_, _)
        | Stmt::Block(_, _)
        | Stmt::If(_, _, _)
        | Stmt::IfElse(_, _, _, _)
        | Stmt::Switch(_, _, _, _)
        | Stmt::Do(_, _, _, _)
        | Stmt::Case(_, _, _)
        | Stmt::Default(_, _)
        | Stmt::Label(_, _, _)
        | Stmt::Goto(_, _)
        | Stmt::Break(_)
        | Stmt::Continue(_) => {
            let all = kept_item(s, frame, round, local, items, Kind::Other)?;
            Ok(all)
        }
    }
}

/// An item that is neither a declaration nor a pragma, after those before; what it is for the pragmas is given.
#[cycle(statements)]
fn kept_item<'s>(
    s: &Stmt<'s>,
    frame: &Frame<'_, 's>,
    round: Round,
    local: &mut Local<'s>,
    items: Items,
    kind: Kind,
) -> Result<Items, AllocError>
    ensures { IfOk result (λ b. plain_block b (plain_local local.new) ≡ kept_item only_first (plain_frame frame.now) round kind (plain_block items (plain_local local.old)) (statement_of s.now)) }
{
    let made = statement(s, frame, round, local)?;
    let all = with_statement(items, kind, made)?;
    Ok(all)
}
