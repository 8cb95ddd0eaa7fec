//! Claims on loops, by a walk over the statements of a function.

ghost use Rattle.std.specs.Prelude.{◌≡◌, ◌≤◌, ◌<◌, ◌^◌, IfOk, true, IsSome, length, map, drop, option_map};
ghost use Rattle.p10_core.specs.Views.{plain_function, plain_statement, plain_statements};
ghost use Rattle.p10_cert.specs.Claims.{loop_of};
ghost use Rattle.p10_fit.specs.Sites.{loop_sites_in, loop_sites_of, in_scope_after, in_scope_after_all, loop_sites};
ghost use Rattle.p10_fit.specs.Fits.{fits_loops};
ghost use Rattle.p10_fit.specs.private.Following.{claims_after, next_fits, loop_sites_in_maybe, sites_with};

use crate::claims::{Opened, declare_all, fits_loop};
use crate::scope::Scope;
use p10_cert::LoopClaim;
use p10_core::{Func, Stmt, StmtForm};
use std::alloc::{AllocError, Global};

/// What a walk over the statements of a function compares with.
#[derive(Clone, Copy)]
struct Compared<'a, 's> {
    function: &'a Func<'s>,
    /// The number of the task loop, if the function has it.
    task: Option<u32>,
    /// The claims on all loops of the function.
    claims: &'a [LoopClaim],
}

/// Whether these may be claimed of the loops of a function, of which the number of the task loop is given.
pub(crate) fn fits_loops(
    alloc: Global,
    function: &Func<'_>,
    task: Option<u32>,
    claims: &[LoopClaim],
) -> Result<bool, AllocError>
    ensures { IfOk result (λ b. b ≡ fits_loops (plain_function function.now) task (loop_sites (plain_function function.now)) (map loop_of claims.now)) }
{
    let mut scope = Scope::new(alloc, function.vars.as_slice().len())?;
    scope.declare_first(function.params)?;
    let compared = Compared {
        function,
        task,
        claims,
    };
    let after = follow_all(&compared, &mut scope, 0, function.body.as_slice(), 0)?;
    match after {
        Some(place) => Ok(place >= claims.len()),
        None => Ok(false),
    }
}

/// Whether the next claims are those of the loops in statements, one after the other. Then the place is that after them.
#[cycle(follow)]
fn follow_all(
    compared: &Compared<'_, '_>,
    scope: &mut Scope,
    depth: u64,
    all: &[Stmt],
    place: usize,
) -> Result<Option<usize>, AllocError>
    requires counted { length scope.old.counts.items ≡ length compared.now.function.now.vars }
    requires shallow { depth ≤ 2 ^ 32 }
    ensures follows { IfOk result (λ after. option_map (λ n. map loop_of (drop n compared.now.claims.now)) after ≡ claims_after (plain_function compared.now.function.now) compared.now.task (loop_sites_of depth scope.old.numbers.items (plain_statements all.now)) (map loop_of (drop place compared.now.claims.now))) }
    ensures scope { IfOk result (λ after. IsSome after → scope.new.numbers.items ≡ in_scope_after_all scope.old.numbers.items (plain_statements all.now)) }
    ensures same { length scope.new.counts.items ≡ length scope.old.counts.items }
{
    let mut place = place;
    for s in all {
        match follow(compared, scope, depth, s, place)? {
            Some(after) => place = after,
            None => return Ok(None),
        }
    }
    Ok(Some(place))
}

/// Whether the next claims are those of the loops in a statement. Then the place is that after them.
#[cycle(follow)]
fn follow(
    compared: &Compared<'_, '_>,
    scope: &mut Scope,
    depth: u64,
    s: &Stmt,
    place: usize,
) -> Result<Option<usize>, AllocError>
    requires counted { length scope.old.counts.items ≡ length compared.now.function.now.vars }
    requires shallow { depth ≤ 2 ^ 32 }
    ensures follows { IfOk result (λ after. option_map (λ n. map loop_of (drop n compared.now.claims.now)) after ≡ claims_after (plain_function compared.now.function.now) compared.now.task (loop_sites_in depth scope.old.numbers.items (plain_statement s.now)) (map loop_of (drop place compared.now.claims.now))) }
    ensures scope { IfOk result (λ after. IsSome after → scope.new.numbers.items ≡ in_scope_after scope.old.numbers.items (plain_statement s.now)) }
    ensures same { length scope.new.counts.items ≡ length scope.old.counts.items }
{
    match &s.form {
        StmtForm::Declare(number, _) => {
            scope.declare(*number)?;
            Ok(Some(place))
        }
        StmtForm::Block(all) => follow_block(compared, scope, depth, all.as_slice(), place),
        StmtForm::If(_, then, other) => {
            match follow_part(compared, scope, depth, then, place)? {
                Some(after) => follow_other(compared, scope, depth, other, after),
                None => Ok(None),
            }
        }
        StmtForm::Loop(head, first, _, _, body) => {
            let opened = Opened { depth, head: *head };
            follow_loop(compared, scope, opened, body, first.as_slice(), place)
        }
        StmtForm::Switch(_, _, _, body) => follow_part(compared, scope, depth, body, place),
        _ => Ok(Some(place)),
    }
}

/// The same for a statement that is a part of another one: what it declares isn't in scope after it.
#[cycle(follow)]
fn follow_part(
    compared: &Compared<'_, '_>,
    scope: &mut Scope,
    depth: u64,
    s: &Stmt,
    place: usize,
) -> Result<Option<usize>, AllocError>
    requires counted { length scope.old.counts.items ≡ length compared.now.function.now.vars }
    requires shallow { depth ≤ 2 ^ 32 }
    ensures follows { IfOk result (λ after. option_map (λ n. map loop_of (drop n compared.now.claims.now)) after ≡ claims_after (plain_function compared.now.function.now) compared.now.task (loop_sites_in depth scope.old.numbers.items (plain_statement s.now)) (map loop_of (drop place compared.now.claims.now))) }
    ensures scope { IfOk result (λ after. IsSome after → scope.new.numbers.items ≡ scope.old.numbers.items) }
    ensures same { length scope.new.counts.items ≡ length scope.old.counts.items }
{
    let outer = scope.len();
    let after = follow(compared, scope, depth, s, place)?;
    if after.is_some() {
        scope.leave(outer);
    }
    Ok(after)
}

/// The same for the items of a block.
#[cycle(follow)]
fn follow_block(
    compared: &Compared<'_, '_>,
    scope: &mut Scope,
    depth: u64,
    all: &[Stmt],
    place: usize,
) -> Result<Option<usize>, AllocError>
    requires counted { length scope.old.counts.items ≡ length compared.now.function.now.vars }
    requires shallow { depth ≤ 2 ^ 32 }
    ensures follows { IfOk result (λ after. option_map (λ n. map loop_of (drop n compared.now.claims.now)) after ≡ claims_after (plain_function compared.now.function.now) compared.now.task (loop_sites_of depth scope.old.numbers.items (plain_statements all.now)) (map loop_of (drop place compared.now.claims.now))) }
    ensures scope { IfOk result (λ after. IsSome after → scope.new.numbers.items ≡ scope.old.numbers.items) }
    ensures same { length scope.new.counts.items ≡ length scope.old.counts.items }
{
    let outer = scope.len();
    let after = follow_all(compared, scope, depth, all, place)?;
    if after.is_some() {
        scope.leave(outer);
    }
    Ok(after)
}

/// The same for the second branch of an `if`, if there is one.
#[cycle(follow)]
fn follow_other(
    compared: &Compared<'_, '_>,
    scope: &mut Scope,
    depth: u64,
    other: &Option<Box<Stmt>>,
    place: usize,
) -> Result<Option<usize>, AllocError>
    requires counted { length scope.old.counts.items ≡ length compared.now.function.now.vars }
    requires shallow { depth ≤ 2 ^ 32 }
    ensures follows { IfOk result (λ after. option_map (λ n. map loop_of (drop n compared.now.claims.now)) after ≡ claims_after (plain_function compared.now.function.now) compared.now.task (loop_sites_in_maybe depth scope.old.numbers.items (option_map (λ x. plain_statement x.value) other.now)) (map loop_of (drop place compared.now.claims.now))) }
    ensures scope { IfOk result (λ after. IsSome after → scope.new.numbers.items ≡ scope.old.numbers.items) }
    ensures same { length scope.new.counts.items ≡ length scope.old.counts.items }
{
    match other {
        Some(other) => follow_part(compared, scope, depth, other, place),
        None => Ok(Some(place)),
    }
}

/// The same for a loop, of which the body and the first clause are given: its own claim, and then those of the loops in it.
#[cycle(follow)]
fn follow_loop(
    compared: &Compared<'_, '_>,
    scope: &mut Scope,
    opened: Opened,
    body: &Stmt,
    first: &[Stmt],
    place: usize,
) -> Result<Option<usize>, AllocError>
    requires counted { length scope.old.counts.items ≡ length compared.now.function.now.vars }
    requires shallow { opened.depth ≤ 2 ^ 32 }
    ensures follows { IfOk result (λ after. option_map (λ n. map loop_of (drop n compared.now.claims.now)) after ≡ claims_after (plain_function compared.now.function.now) compared.now.task (sites_with opened.depth opened.head (in_scope_after_all scope.old.numbers.items (plain_statements first.now)) (plain_statement body.now)) (map loop_of (drop place compared.now.claims.now))) }
    ensures scope { IfOk result (λ after. IsSome after → scope.new.numbers.items ≡ scope.old.numbers.items) }
    ensures same { length scope.new.counts.items ≡ length scope.old.counts.items }
{
    let outer = scope.len();
    declare_all(scope, first)?;
    if !next_fits(compared, scope, opened, place) {
        return Ok(None);
    }
    let after = follow_part(compared, scope, opened.depth + 1, body, place + 1)?;
    if after.is_some() {
        scope.leave(outer);
    }
    Ok(after)
}

/// Whether the claim at a place is there and may be that on a loop. Then the loop stands in fewer than 2^32 loops.
fn next_fits(compared: &Compared<'_, '_>, scope: &Scope, opened: Opened, place: usize) -> bool
    requires counted { length scope.now.counts.items ≡ length compared.now.function.now.vars }
    ensures fits { result ≡ next_fits (plain_function compared.now.function.now) compared.now.task (record { depth = opened.depth; head = opened.head; scope = scope.now.numbers.items }) (map loop_of (drop place compared.now.claims.now)) }
    ensures there { result ≡ true → place < length compared.now.claims.now }
    ensures shallow { result ≡ true → opened.depth < 2 ^ 32 }
{
    match compared.claims.get(place) {
        Some(claim) => fits_loop(compared.function, compared.task, scope, opened, claim),
        None => false,
    }
}
