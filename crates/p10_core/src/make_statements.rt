//! Statements, made of their parts. A maker that may fail does so only where memory runs out.

ghost use Rattle.std.specs.Prelude.{◌≡◌, IfOk, option_map};
ghost use Rattle.p10_core.specs.Types.{plain_type};
ghost use Rattle.p10_core.specs.Typed.{statement, set, update, copy, evaluate, asserts, declare, declare_static, block, if_then, if_else, loop, switch, break, continue, return, empty, mark};
ghost use Rattle.p10_core.specs.Views.{plain_value, plain_place, plain_initializer, plain_labels, plain_statement, plain_statement_form, plain_statements};

use crate::c_type::CType;
use crate::statements::{Initializer, Labels, LoopHead, MarkKind, Stmt, StmtForm, UpdateKind};
use crate::typed::{Place, Value};
use p10_base::{At, ListBuf, Span, boxed, boxed_pair};
use p10_int::BinOp;
use std::alloc::{AllocError, Global};

/// The clauses of a loop: its first clause, its test and its third clause. `while` and `do` have a test alone.
#[derive(Drop)]
pub struct Clauses {
    pub first: Vec<Stmt>,
    pub test: Option<Value>,
    pub third: Vec<Stmt>,
}

impl Stmt {
    /// `P = e;` of a scalar.
    pub fn set(at: At, target: Place, value: Value) -> Stmt
        ensures { plain_statement result ≡ statement at (set (plain_place target) (plain_value value)) }
    {
        Stmt {
            at,
            form: StmtForm::Set(target, value),
        }
    }

    /// `P op= e;`, `P++;` or `P--;`, with the type to which the value of P is converted for the operator.
    pub fn update(
        at: At,
        kind: UpdateKind,
        op: BinOp,
        ty: CType,
        target: Place,
        value: Value,
    ) -> Stmt
        ensures { plain_statement result ≡ statement at (update kind op (plain_type ty) (plain_place target) (plain_value value)) }
    {
        Stmt {
            at,
            form: StmtForm::Update(kind, op, ty, target, value),
        }
    }

    /// The copy of a structure.
    pub fn copy(at: At, target: Place, source: Place) -> Stmt
        ensures { plain_statement result ≡ statement at (copy (plain_place target) (plain_place source)) }
    {
        Stmt {
            at,
            form: StmtForm::Copy(target, source),
        }
    }

    /// Another expression.
    pub fn value(at: At, value: Value) -> Stmt
        ensures { plain_statement result ≡ statement at (evaluate (plain_value value)) }
    {
        Stmt {
            at,
            form: StmtForm::Value(value),
        }
    }

    /// `assert(e);`, with where the call stands.
    pub fn assertion(at: At, call: At, value: Value) -> Stmt
        ensures { plain_statement result ≡ statement at (asserts call (plain_value value)) }
    {
        Stmt {
            at,
            form: StmtForm::Assert(call, value),
        }
    }

    /// The declaration of a variable of the function, by its number.
    pub fn declare(at: At, number: u32, initial: Initializer) -> Stmt
        ensures { plain_statement result ≡ statement at (declare number (plain_initializer initial)) }
    {
        Stmt {
            at,
            form: StmtForm::Declare(number, initial),
        }
    }

    /// The declaration of an object of static lifetime in a block, by its number.
    pub fn declare_static(at: At, number: u32) -> Stmt
        ensures { plain_statement result ≡ statement at (declare_static number) }
    {
        Stmt {
            at,
            form: StmtForm::Static(number),
        }
    }

    /// A block of items.
    pub fn block(at: At, items: Vec<Stmt>) -> Stmt
        ensures { plain_statement result ≡ statement at (block (plain_statements items.items)) }
    {
        Stmt {
            at,
            form: StmtForm::Block(ListBuf::of(items)),
        }
    }

    /// `if` without `else`.
    pub fn if_then(alloc: Global, at: At, test: Value, then: Stmt) -> Result<Stmt, AllocError>
        ensures { IfOk result (λ s. plain_statement s ≡ statement at (if_then (plain_value test) (plain_statement then))) }
    {
        Ok(Stmt {
            at,
            form: StmtForm::If(test, boxed(alloc, then)?, None),
        })
    }

    /// `if` with `else`.
    pub fn if_else(
        alloc: Global,
        at: At,
        test: Value,
        then: Stmt,
        otherwise: Stmt,
    ) -> Result<Stmt, AllocError>
        ensures { IfOk result (λ s. plain_statement s ≡ statement at (if_else (plain_value test) (plain_statement then) (plain_statement otherwise))) }
    {
        let (then, otherwise) = boxed_pair(alloc, then, otherwise)?;
        Ok(Stmt {
            at,
            form: StmtForm::If(test, then, Some(otherwise)),
        })
    }

    /// A loop.
    pub fn loops(
        alloc: Global,
        at: At,
        head: LoopHead,
        clauses: Clauses,
        body: Stmt,
    ) -> Result<Stmt, AllocError>
        ensures { IfOk result (λ s. plain_statement s ≡ statement at (loop head (plain_statements clauses.first.items) (option_map plain_value clauses.test) (plain_statements clauses.third.items) (plain_statement body))) }
    {
        let Clauses { first, test, third } = clauses;
        let body = boxed(alloc, body)?;
        let form = loop_form(head, ListBuf::of(first), test, ListBuf::of(third), body);
        Ok(Stmt { at, form })
    }

    /// `switch`, with the span of its keyword.
    pub fn switch(
        alloc: Global,
        at: At,
        keyword: Span,
        value: Value,
        labels: Labels,
        body: Stmt,
    ) -> Result<Stmt, AllocError>
        ensures { IfOk result (λ s. plain_statement s ≡ statement at (switch keyword (plain_value value) (plain_labels labels) (plain_statement body))) }
    {
        Ok(Stmt {
            at,
            form: StmtForm::Switch(keyword, value, labels, boxed(alloc, body)?),
        })
    }

    /// `break;`.
    pub fn breaks(at: At) -> Stmt
        ensures { plain_statement result ≡ statement at break }
    {
        Stmt {
            at,
            form: StmtForm::Break,
        }
    }

    /// `continue;`.
    pub fn continues(at: At) -> Stmt
        ensures { plain_statement result ≡ statement at continue }
    {
        Stmt {
            at,
            form: StmtForm::Continue,
        }
    }

    /// `return`, with the span of its keyword and its value, if it has one.
    pub fn returns(at: At, keyword: Span, value: Option<Value>) -> Stmt
        ensures { plain_statement result ≡ statement at (return keyword (option_map plain_value value)) }
    {
        Stmt {
            at,
            form: StmtForm::Return(keyword, value),
        }
    }

    /// `;`.
    pub fn empty(at: At) -> Stmt
        ensures { plain_statement result ≡ statement at empty }
    {
        Stmt {
            at,
            form: StmtForm::Empty,
        }
    }

    /// A pragma of p10.
    pub fn mark(at: At, kind: MarkKind) -> Stmt
        ensures { plain_statement result ≡ statement at (mark kind) }
    {
        Stmt {
            at,
            form: StmtForm::Mark(kind),
        }
    }
}

/// The form of a loop, with its body in a box.
fn loop_form(
    head: LoopHead,
    first: ListBuf<Stmt>,
    test: Option<Value>,
    third: ListBuf<Stmt>,
    body: Box<Stmt>,
) -> StmtForm
    ensures { plain_statement_form result ≡ loop head (plain_statements first) (option_map plain_value test) (plain_statements third) (plain_statement body.value) }
{
    StmtForm::Loop(head, first, test, third, body)
}
