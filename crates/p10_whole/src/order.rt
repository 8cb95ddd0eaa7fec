//! The order of a function's declarations, loops and pragmas: the numbers of variables and of loops rise by one in text
//! order, and each pragma stands at most once.

ghost use Rattle.std.specs.Prelude.{[], ◌∷◌, option_map};
ghost use Rattle.p10_core.specs.Views.{plain_statement, plain_statements, plain_function};
ghost use Rattle.p10_core.specs.WholePrograms.{declared_in, declared_of, loops_in, loops_of, marks_in, marks_of};
ghost use Rattle.p10_whole.specs.private.Orders.{Passes, PassesOther, InOrder};
ghost use Rattle.p10_whole.specs.private.Shows.{Shows};

use p10_core::{Func, LoopHead, MarkKind, Stmt, StmtForm};

/// What comes next in text order.
#[derive(Clone, Copy)]
struct Next {
    /// The number of the variable that is declared next.
    variable: u64,
    /// The number of the next loop.
    of_loop: u64,
    /// Whether the pragma `init_done` is still to come.
    init_done: bool,
    /// Whether the pragma of the task loop is still to come.
    task_loop: bool,
}

/// Whether the variables and loops of a function are in order, and it has each of the two pragmas once where that is asked for, and none
/// else.
pub(crate) fn is_in_order(function: &Func<'_>, init_done: bool, task_loop: bool) -> bool
    ensures { Shows result (InOrder (plain_function function.now) init_done task_loop) }
{
    let mut next = Next {
        variable: u64::from(function.params),
        of_loop: 0,
        init_done,
        task_loop,
    };
    if !pass_statements(&mut next, function.body.as_slice()) {
        return false;
    }
    let all_declared = next.variable == function.vars.as_slice().len() as u64;
    all_declared & (!next.init_done & !next.task_loop)
}

/// Passes statements one after the other, and answers whether what stands in them is in order.
#[cycle(order)]
fn pass_statements(next: &mut Next, all: &[Stmt]) -> bool
    ensures { Shows result (Passes next.old (declared_of (plain_statements all.now)) (loops_of (plain_statements all.now)) (marks_of (plain_statements all.now)) next.new) }
{
    for s in all {
        if !pass_statement(next, s) {
            return false;
        }
    }
    true
}

/// Passes a statement, and answers whether what stands in it is in order.
#[cycle(order)]
fn pass_statement(next: &mut Next, s: &Stmt) -> bool
    ensures { Shows result (Passes next.old (declared_in (plain_statement s.now)) (loops_in (plain_statement s.now)) (marks_in (plain_statement s.now)) next.new) }
{
    match &s.form {
        StmtForm::Declare(number, _) => pass_variable(next, *number),
        StmtForm::Mark(kind) => pass_mark(next, *kind),
        StmtForm::Block(all) => pass_statements(next, all.as_slice()),
        StmtForm::If(_, then, other) => {
            if !pass_statement(next, then) {
                return false;
            }
            pass_other(next, other)
        }
        StmtForm::Loop(head, first, _, _, body) => {
            if !pass_opening(next, first.as_slice(), *head) {
                return false;
            }
            pass_statement(next, body)
        }
        StmtForm::Switch(_, _, _, body) => pass_statement(next, body),
        StmtForm::Set(_, _) | StmtForm::Update(_, _, _, _, _) | StmtForm::Copy(_, _) => true,
        StmtForm::Value(_) | StmtForm::Assert(_, _) | StmtForm::Static(_) => true,
        StmtForm::Break | StmtForm::Continue | StmtForm::Return(_, _) | StmtForm::Empty => true,
    }
}

/// Passes the second branch of an `if`, if there is one.
#[cycle(order)]
fn pass_other(next: &mut Next, other: &Option<Box<Stmt>>) -> bool
    ensures { Shows result (PassesOther next.old (option_map (λ b. plain_statement b.value) other.now) next.new) }
{
    match other {
        Some(other) => pass_statement(next, other),
        None => true,
    }
}

/// Passes the keyword and the first clause of a loop, in which only declarations count.
#[cycle(order)]
fn pass_opening(next: &mut Next, first: &[Stmt], head: LoopHead) -> bool
    ensures { Shows result (Passes next.old (declared_of (plain_statements first.now)) (head ∷ []) [] next.new) }
{
    if !pass_head(next, head) {
        return false;
    }
    let mut opening = *next;
    if !pass_statements(&mut opening, first) {
        return false;
    }
    next.variable = opening.variable;
    true
}

/// Passes the declaration of a variable.
fn pass_variable(next: &mut Next, number: u32) -> bool
    ensures { Shows result (Passes next.old (number ∷ []) [] [] next.new) }
{
    if next.variable != u64::from(number) {
        return false;
    }
    next.variable += 1;
    true
}

/// Passes the keyword of a loop.
fn pass_head(next: &mut Next, head: LoopHead) -> bool
    ensures { Shows result (Passes next.old [] (head ∷ []) [] next.new) }
{
    if next.of_loop != u64::from(head.number) {
        return false;
    }
    next.of_loop += 1;
    true
}

/// Passes a pragma.
fn pass_mark(next: &mut Next, kind: MarkKind) -> bool
    ensures { Shows result (Passes next.old [] [] (kind ∷ []) next.new) }
{
    match kind {
        MarkKind::InitDone => {
            let comes = next.init_done;
            next.init_done = false;
            comes
        }
        MarkKind::TaskLoop => {
            let comes = next.task_loop & !next.init_done;
            next.task_loop = false;
            comes
        }
    }
}
