//! Where control leaves statements, and the blocks that it closes.

ghost use Rattle.std.specs.Prelude.{◌≡◌, ◌||◌, map, IfOk, slice_get};
ghost use Rattle.p10_core.specs.Views.{plain_statement, plain_statements, plain_variable};
ghost use Rattle.p10_code.specs.StatementCode.{one_more, within, is_object, opens_object, any_opens, inner_place, block_code, loop_exits, third_exits, switch_exits};
ghost use Rattle.p10_code.specs.Frames.{has_objects};
ghost use Rattle.p10_compile.specs.Views.{plain_op, plain_exits};

use crate::code::{ended, led, op};
use crate::counts::{place_after, slot_after};
use crate::operations::{Action, Op};
use p10_base::{At, Span};
use p10_core::{Stmt, StmtForm, Variable};
use std::alloc::{AllocError, Global};

/// Where `break` and `continue` go, and how many blocks that open objects they and `return` close.
#[derive(Clone, Copy, Debug)]
pub struct Exits {
    pub over: usize,
    pub over_close: u32,
    pub again: usize,
    pub again_close: u32,
    pub all_close: u32,
}

/// Where a statement stands: its place in the sources, its exits, and the place of its first operation.
#[derive(Clone, Copy, Debug)]
pub struct Around {
    pub here: At,
    pub exits: Exits,
    pub at: usize,
}

impl Around {
    /// A part of the statement, from a place on.
    pub fn at_place(self, at: usize) -> Around
        ensures { result ≡ record { here = self.here; exits = self.exits; at = at } }
    {
        Around { at, ..self }
    }
}

/// How many blocks there are to close, with one more if it opens objects.
pub fn one_more(tracked: bool, count: u32) -> Result<u32, AllocError>
    ensures { IfOk result (λ n. n ≡ one_more tracked count) }
{
    if tracked {
        slot_after(count, 1)
    } else {
        Ok(count)
    }
}

impl Exits {
    /// The exits within a block.
    pub fn within(self, tracked: bool) -> Result<Exits, AllocError>
        ensures { IfOk result (λ exits. plain_exits exits ≡ within tracked (plain_exits self)) }
    {
        Ok(Exits {
            over: self.over,
            over_close: one_more(tracked, self.over_close)?,
            again: self.again,
            again_close: one_more(tracked, self.again_close)?,
            all_close: one_more(tracked, self.all_close)?,
        })
    }

    /// The exits of a loop's body, whose jumps begin at a place.
    pub fn of_loop(self, jumps: usize) -> Result<Exits, AllocError>
        ensures { IfOk result (λ exits. plain_exits exits ≡ loop_exits (plain_exits self) jumps) }
    {
        Ok(Exits {
            over: place_after(jumps, 2)?,
            over_close: 0,
            again: place_after(jumps, 1)?,
            again_close: 0,
            all_close: self.all_close,
        })
    }

    /// The exits of a loop's third clause.
    pub fn of_third(self, jumps: usize) -> Result<Exits, AllocError>
        ensures { IfOk result (λ exits. plain_exits exits ≡ third_exits (plain_exits self) jumps) }
    {
        Ok(Exits {
            over: place_after(jumps, 2)?,
            over_close: 0,
            again: place_after(jumps, 3)?,
            again_close: 0,
            all_close: self.all_close,
        })
    }

    /// The exits of a `switch`'s body, whose `break` goes to the jump at a place.
    pub fn of_switch(self, over: usize) -> Exits
        ensures { plain_exits result ≡ switch_exits (plain_exits self) over }
    {
        Exits {
            over,
            over_close: 0,
            ..self
        }
    }
}

/// Whether the declaration of the variable with a number opens an object.
fn is_object(variables: &[Variable<'_>], number: u32) -> bool
    ensures { result ≡ is_object (slice_get (map plain_variable variables.now) number) }
{
    match variables.get(number as usize) {
        Some(variable) => !variable.frame,
        None => false,
    }
}

/// Whether a statement opens an object in the block that it stands in.
pub fn opens_object(s: &Stmt, variables: &[Variable<'_>]) -> bool
    ensures { result ≡ opens_object (map plain_variable variables.now) (plain_statement s.now) }
{
    match &s.form {
        StmtForm::Declare(number, _) => is_object(variables, *number),
        StmtForm::If(_, first, None) => opens_object(first, variables),
        StmtForm::If(_, first, Some(second)) => {
            opens_object(first, variables) || opens_object(second, variables)
        }
        _ => false,
    }
}

/// Whether one of several statements opens an object.
pub fn any_opens(statements: &[Stmt], variables: &[Variable<'_>]) -> bool
    ensures { result ≡ any_opens (map plain_variable variables.now) (plain_statements statements.now) }
{
    for s in statements {
        if opens_object(s, variables) {
            return true;
        }
    }
    false
}

/// Whether one of the statements of a loop opens an object in its block.
pub fn loop_opens(first: &[Stmt], body: &Stmt, third: &[Stmt], variables: &[Variable<'_>]) -> bool
    ensures { result ≡ (any_opens (map plain_variable variables.now) (plain_statements first.now) || (opens_object (map plain_variable variables.now) (plain_statement body.now) || any_opens (map plain_variable variables.now) (plain_statements third.now))) }
{
    any_opens(first, variables) || (opens_object(body, variables) || any_opens(third, variables))
}

/// Whether one of the variables of a function is an object.
pub fn has_objects(variables: &[Variable<'_>]) -> bool
    ensures { result ≡ has_objects (map plain_variable variables.now) }
{
    for variable in variables {
        if !variable.frame {
            return true;
        }
    }
    false
}

/// Where the code in a block begins.
pub fn inner_place(tracked: bool, at: usize) -> Result<usize, AllocError>
    ensures { IfOk result (λ n. n ≡ inner_place tracked at) }
{
    if tracked { place_after(at, 1) } else { Ok(at) }
}

/// A block that opens objects is begun and closed.
pub fn block_code<'p>(
    alloc: Global,
    tracked: bool,
    span: Span,
    body: Vec<Op<'p>>,
) -> Result<Vec<Op<'p>>, AllocError>
    ensures { IfOk result (λ code. map plain_op code.items ≡ block_code tracked span (map plain_op body.entry.items)) }
{
    if tracked {
        led(
            alloc,
            op(0, span, Action::Begin),
            ended(body, op(0, span, Action::Close))?,
        )
    } else {
        Ok(body)
    }
}
