//! Which variables a statement may change, asked of any number.

ghost use Rattle.std.specs.Prelude.{◌≡◌, ◌||◌};
ghost use Rattle.std.specs.Option.{option_map};
ghost use Rattle.p10_core.specs.Views.{plain_place, plain_statement, plain_statements};
ghost use Rattle.p10_meaning.specs.Variables.{is_variable_place, may_change, any_may_change};
ghost use Rattle.p10_pass.specs.Marks.{AreMarks};
ghost use Rattle.p10_diff.specs.private.Changes.{may_change_else};

use p10_core::{Place, PlaceForm, Stmt, StmtForm};
use p10_pass::is_marked;

/// Whether a place is the variable with a number.
fn is_variable(n: u32, target: &Place) -> bool
    ensures { result ≡ is_variable_place n (plain_place target.now) }
{
    match &target.form {
        PlaceForm::Var(m) => *m == n,
        PlaceForm::Global(_)
        | PlaceForm::Literal(_, _)
        | PlaceForm::Index(_, _)
        | PlaceForm::Member(_, _)
        | PlaceForm::Deref(_) => false,
    }
}

/// Whether one of three holds.
fn any_of_three(a: bool, b: bool, c: bool) -> bool
    ensures { result ≡ ((a || b) || c) }
{
    a || b || c
}

/// Whether a statement may change the variable with a number.
#[cycle(changing)]
fn may_change(n: u32, s: &Stmt) -> bool
    ensures { result ≡ may_change n (plain_statement s.now) }
{
    match &s.form {
        StmtForm::Set(target, _) => is_variable(n, target),
        StmtForm::Update(_, _, _, target, _) => is_variable(n, target),
        StmtForm::Declare(m, _) => *m == n,
        StmtForm::Block(items) => any_may_change(n, items.as_slice()),
        StmtForm::If(_, then, other) => {
            if may_change(n, then) {
                return true;
            }
            may_change_else(n, other)
        }
        StmtForm::Loop(_, first, _, third, body) => any_of_three(
            any_may_change(n, first.as_slice()),
            any_may_change(n, third.as_slice()),
            may_change(n, body),
        ),
        StmtForm::Switch(_, _, _, body) => may_change(n, body),
        StmtForm::Copy(_, _)
        | StmtForm::Value(_)
        | StmtForm::Assert(_, _)
        | StmtForm::Static(_)
        | StmtForm::Break
        | StmtForm::Continue
        | StmtForm::Return(_, _)
        | StmtForm::Empty
        | StmtForm::Mark(_) => false,
    }
}

/// The same of the second branch of an `if`, if there is one.
#[cycle(changing)]
fn may_change_else(n: u32, other: &Option<Box<Stmt>>) -> bool
    ensures { result ≡ may_change_else n (option_map (λ x. plain_statement x.value) other.now) }
{
    match other {
        Some(s) => may_change(n, s),
        None => false,
    }
}

/// The same of statements.
#[cycle(changing)]
fn any_may_change(n: u32, items: &[Stmt]) -> bool
    ensures { result ≡ any_may_change n (plain_statements items.now) }
{
    for s in items {
        if may_change(n, s) {
            return true;
        }
    }
    false
}

/// What a statement may change, by marks of the first variables.
#[derive(Clone, Copy)]
pub struct Changes<'s> {
    pub by: &'s Stmt,
    pub count: usize,
    pub marks: &'s [bool],
}

impl Changes<'_> {
    /// Whether it may change the variable with a number. The marks answer for most; only a number past them is sought.
    pub(crate) fn may_change(&self, n: u32) -> bool
        requires { AreMarks (λ n. may_change n (plain_statement self.now.by.now)) self.now.count self.now.marks.now }
        ensures { result ≡ may_change n (plain_statement self.now.by.now) }
    {
        if (n as usize) < self.count {
            is_marked(self.marks, n as usize)
        } else {
            may_change(n, self.by)
        }
    }
}
