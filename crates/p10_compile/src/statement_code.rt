//! The code of statements. Each of these functions fails only where memory runs out.

ghost use Rattle.std.specs.Prelude.{◌≡◌, ◌+◌, map, IfOk};
ghost use Rattle.std.specs.Option.{option_map};
ghost use Rattle.p10_core.specs.Typed.{block};
ghost use Rattle.p10_core.specs.Views.{plain_value, plain_labels, plain_statement, plain_statements};
ghost use Rattle.p10_code.specs.StatementCode.{statement_code, statements_code, form_code, item_places, loop_exits, third_exits, switched_code, switch_part};
ghost use Rattle.p10_compile.specs.Blocks.{otherwise_code, switch_block, switched_by};
ghost use Rattle.p10_compile.specs.Views.{plain_op, plain_operand, plain_site, plain_exits};

use crate::code::{Part, branched, joined, none, one, op, past, past_branch};
use crate::counts::place_after;
use crate::exits::{Around, Exits, any_opens, block_code, inner_place, loop_opens};
use crate::operations::{Action, Op, Operand};
use crate::site::Site;
use crate::statement_parts::{Looping, empty_code, if_code, leave_code, looped_code, switch_parts};
use p10_core::{Labels, MarkKind, Stmt, StmtForm, Value};
use std::alloc::AllocError;

/// The operations of statements, and the place of the first operation of each.
#[derive(Drop)]
pub struct Placed<'p> {
    pub code: Vec<Op<'p>>,
    pub places: Vec<usize>,
}

impl<'p> Site<'p, '_> {
    /// The operations of a statement.
    #[cycle(statements)]
    pub fn statement_code(
        &self,
        s: &'p Stmt,
        exits: Exits,
        at: usize,
    ) -> Result<Vec<Op<'p>>, AllocError>
        ensures { IfOk result (λ code. map plain_op code.items ≡ statement_code (plain_site self.now) (plain_exits exits) at (plain_statement s.now)) }
    {
        let span = s.at.span;
        let around = Around {
            here: s.at,
            exits,
            at,
        };
        match &s.form {
            StmtForm::Set(place, v) => self.set_code(place, v, at),
            StmtForm::Update(_, o, t, place, v) => self.update_code(*o, t, place, v, around),
            StmtForm::Copy(target, source) => self.copy_code(target, source, at),
            StmtForm::Value(v) => self.discard_code(v, span, at),
            StmtForm::Assert(call, v) => self.assert_code(v, *call, at),
            StmtForm::Declare(number, initializer) => {
                self.declare_code(*number, initializer, span, at)
            }
            StmtForm::Static(_) => Ok(none(self.alloc)),
            StmtForm::Block(items) => self.block_code(items.as_slice(), around),
            StmtForm::If(test, first, other) => {
                let test = self.test_part(test, 1, at)?;
                let hit = past_branch(at, test.code.as_slice())?;
                let code = self.statement_code(first, exits, hit)?;
                self.otherwise_code(other, test, code, around.at_place(hit))
            }
            StmtForm::Loop(head, first, test, third, body) => {
                let first = first.as_slice();
                let third = third.as_slice();
                let tracked = loop_opens(first, body, third, self.variables);
                let inner = exits.within(tracked)?;
                let begins = inner_place(tracked, place_after(at, 1)?)?;
                let before = self.statements_code(first, inner, begins)?;
                let jumps = past(begins, before.as_slice())?;
                let turn = self.turn_code(body, inner, jumps)?;
                let third_at = past(place_after(jumps, 4)?, turn.as_slice())?;
                let after = self.third_code(third, inner, jumps, third_at)?;
                let looping = Looping::new(head.keyword, span, jumps, third_at);
                let rest = self.loop_rest(test, turn, after, looping)?;
                looped_code(self.alloc, tracked, span, at, before, rest)
            }
            StmtForm::Switch(_, value, labels, body) => {
                self.switched_code(body, value, labels, around)
            }
            StmtForm::Break => leave_code(self.alloc, span, exits.over_close, exits.over),
            StmtForm::Continue => leave_code(self.alloc, span, exits.again_close, exits.again),
            StmtForm::Return(_, v) => self.return_code(v, around),
            StmtForm::Empty => empty_code(self.alloc, span, at),
            StmtForm::Mark(MarkKind::InitDone) => one(self.alloc, op(0, span, Action::Mark)),
            StmtForm::Mark(MarkKind::TaskLoop) => Ok(none(self.alloc)),
        }
    }

    /// The operations of statements in order, and where each begins.
    #[cycle(statements)]
    pub fn placed_code(
        &self,
        statements: &'p [Stmt],
        exits: Exits,
        at: usize,
    ) -> Result<Placed<'p>, AllocError>
        ensures code { IfOk result (λ placed. map plain_op placed.code.items ≡ statements_code (plain_site self.now) (plain_exits exits) at (plain_statements statements.now)) }
        ensures places { IfOk result (λ placed. placed.places.items ≡ item_places (plain_site self.now) (plain_exits exits) at (plain_statements statements.now)) }
    {
        let mut code = none(self.alloc);
        let mut places = Vec::new(self.alloc);
        for s in statements {
            let next = past(at, code.as_slice())?;
            places.push(next)?;
            let more = self.statement_code(s, exits, next)?;
            code = joined(code, more)?;
        }
        Ok(Placed { code, places })
    }

    /// The operations of statements in order.
    #[cycle(statements)]
    pub fn statements_code(
        &self,
        statements: &'p [Stmt],
        exits: Exits,
        at: usize,
    ) -> Result<Vec<Op<'p>>, AllocError>
        ensures { IfOk result (λ code. map plain_op code.items ≡ statements_code (plain_site self.now) (plain_exits exits) at (plain_statements statements.now)) }
    {
        let Placed { code, places: _ } = self.placed_code(statements, exits, at)?;
        Ok(code)
    }

    /// A block.
    #[cycle(statements)]
    fn block_code(&self, items: &'p [Stmt], around: Around) -> Result<Vec<Op<'p>>, AllocError>
        ensures { IfOk result (λ code. map plain_op code.items ≡ form_code (plain_site self.now) (plain_exits around.exits) around.at around.here (block (plain_statements items.now))) }
    {
        let tracked = any_opens(items, self.variables);
        let begins = inner_place(tracked, around.at)?;
        let body = self.statements_code(items, around.exits.within(tracked)?, begins)?;
        block_code(self.alloc, tracked, around.here.span, body)
    }

    /// What is left of an `if`, whose test is compiled, and its first branch, which begins at a place.
    #[cycle(statements)]
    fn otherwise_code(
        &self,
        other: &'p Option<Box<Stmt>>,
        test: Part<'p>,
        code: Vec<Op<'p>>,
        around: Around,
    ) -> Result<Vec<Op<'p>>, AllocError>
        ensures { IfOk result (λ all. map plain_op all.items ≡ otherwise_code (plain_site self.now) (plain_exits around.exits) around.here.span (map plain_op test.entry.code.items) test.entry.debt (plain_operand test.entry.operand) around.at (map plain_op code.entry.items) (option_map (λ s. plain_statement s.value) other.now)) }
    {
        let span = around.here.span;
        match other {
            None => {
                let end = past(around.at, code.as_slice())?;
                joined(branched(test, span, around.at, end)?, code)
            }
            Some(second) => {
                let miss = place_after(past(around.at, code.as_slice())?, 1)?;
                let rest = self.statement_code(second, around.exits, miss)?;
                let end = past(miss, rest.as_slice())?;
                let test = branched(test, span, around.at, miss)?;
                if_code(self.alloc, span, test, code, end, rest)
            }
        }
    }

    /// The body of a loop whose jumps begin at a place.
    #[cycle(statements)]
    fn turn_code(
        &self,
        body: &'p Stmt,
        exits: Exits,
        jumps: usize,
    ) -> Result<Vec<Op<'p>>, AllocError>
        ensures { IfOk result (λ code. map plain_op code.items ≡ statement_code (plain_site self.now) (loop_exits (plain_exits exits) jumps) (jumps + 4) (plain_statement body.now)) }
    {
        let at = place_after(jumps, 4)?;
        self.statement_code(body, exits.of_loop(jumps)?, at)
    }

    /// The third clause of a loop whose jumps begin at a place.
    #[cycle(statements)]
    fn third_code(
        &self,
        third: &'p [Stmt],
        exits: Exits,
        jumps: usize,
        at: usize,
    ) -> Result<Vec<Op<'p>>, AllocError>
        ensures { IfOk result (λ code. map plain_op code.items ≡ statements_code (plain_site self.now) (third_exits (plain_exits exits) jumps) at (plain_statements third.now)) }
    {
        self.statements_code(third, exits.of_third(jumps)?, at)
    }

    /// A `switch`.
    #[cycle(statements)]
    fn switched_code(
        &self,
        body: &'p Stmt,
        value: &'p Value,
        labels: &'p Labels,
        around: Around,
    ) -> Result<Vec<Op<'p>>, AllocError>
        ensures { IfOk result (λ code. map plain_op code.items ≡ switched_code (plain_site self.now) (plain_exits around.exits) around.at around.here (plain_value value.now) (plain_labels labels.now) (plain_statement body.now)) }
    {
        let code = self.switch_value(value, around.at)?;
        self.switch_rest(body, labels, code, around)
    }

    /// What follows the value of a `switch`: a body that is no block isn't entered.
    #[cycle(statements)]
    fn switch_rest(
        &self,
        body: &'p Stmt,
        labels: &'p Labels,
        value: Vec<Op<'p>>,
        around: Around,
    ) -> Result<Vec<Op<'p>>, AllocError>
        ensures { IfOk result (λ code. map plain_op code.items ≡ switched_by (plain_site self.now) (plain_exits around.exits) around.at around.here.span (plain_labels labels.now) (map plain_op value.entry.items) (plain_statement body.now)) }
    {
        match &body.form {
            StmtForm::Block(items) => {
                let at = past(around.at, value.as_slice())?;
                let rest = self.switch_block(items.as_slice(), labels, around.at_place(at))?;
                joined(value, rest)
            }
            StmtForm::Set(_, _)
            | StmtForm::Update(_, _, _, _, _)
            | StmtForm::Copy(_, _)
            | StmtForm::Value(_)
            | StmtForm::Assert(_, _)
            | StmtForm::Declare(_, _)
            | StmtForm::Static(_)
            | StmtForm::If(_, _, None)
            | StmtForm::If(_, _, Some(_))
            | StmtForm::Loop(_, _, _, _, _)
            | StmtForm::Switch(_, _, _, _)
            | StmtForm::Break
            | StmtForm::Continue
            | StmtForm::Return(_, _)
            | StmtForm::Empty
            | StmtForm::Mark(_) => Ok(value),
        }
    }

    /// The block that is a `switch`'s body.
    #[cycle(statements)]
    fn switch_block(
        &self,
        items: &'p [Stmt],
        labels: &'p Labels,
        around: Around,
    ) -> Result<Vec<Op<'p>>, AllocError>
        ensures { IfOk result (λ code. map plain_op code.items ≡ switch_block (plain_site self.now) around.here.span (plain_labels labels.now) (plain_statements items.now) (plain_exits around.exits) around.at) }
    {
        let tracked = any_opens(items, self.variables);
        let inner = Around {
            exits: around.exits.within(tracked)?,
            at: inner_place(tracked, around.at)?,
            ..around
        };
        let part = self.switch_part(items, labels, inner)?;
        block_code(self.alloc, tracked, around.here.span, part)
    }

    /// A `switch` in its block.
    #[cycle(statements)]
    fn switch_part(
        &self,
        items: &'p [Stmt],
        labels: &'p Labels,
        around: Around,
    ) -> Result<Vec<Op<'p>>, AllocError>
        ensures { IfOk result (λ code. map plain_op code.items ≡ switch_part (plain_site self.now) around.here.span (plain_labels labels.now) (plain_statements items.now) (plain_exits around.exits) around.at) }
    {
        let over = place_after(around.at, 1)?;
        let begins = place_after(around.at, 2)?;
        let value = Operand::Slot(self.free()?);
        let exits = around.exits.of_switch(over);
        let Placed { code, places } = self.placed_code(items, exits, begins)?;
        let end = past(begins, code.as_slice())?;
        let choice = Action::Choose(value, labels, places, end);
        switch_parts(self.alloc, around.here.span, choice, end, code)
    }
}
