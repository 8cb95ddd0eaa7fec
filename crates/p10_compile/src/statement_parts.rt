//! Parts of the code of statements. Each of these functions fails only where memory runs out.

ghost use Rattle.std.specs.Prelude.{◌≡◌, ◌+◌, ◌++◌, ◌∷◌, [], length, map, IfOk, Some};
ghost use Rattle.std.specs.Option.{option_map};
ghost use Rattle.p10_base.specs.declared.span.Span.{Span};
ghost use Rattle.p10_base.specs.declared.at.At.{At};
ghost use Rattle.p10_core.specs.Typed.{asserts, return};
ghost use Rattle.p10_core.specs.Views.{plain_value};
ghost use Rattle.p10_code.specs.Operations.{jump, leave};
ghost use Rattle.p10_code.specs.ValueCode.{op, value_code, into_code, operand, debt};
ghost use Rattle.p10_code.specs.StatementCode.{Exits as PlainExits, free, form_code, discard_code, test_code, test_length, loop_test, loop_test_length, loop_start, if_code, block_code};
ghost use Rattle.p10_compile.specs.Blocks.{turned_code};
ghost use Rattle.p10_compile.specs.Views.{plain_op, plain_action, plain_operand, plain_site, plain_exits};

use crate::code::{Part, branched, ended, joined, led, one, op, past, past_branch};
use crate::counts::place_after;
use crate::exits::{Around, block_code};
use crate::operations::{Action, Op};
use crate::site::Site;
use crate::start::Start;
use crate::values::debt;
use p10_base::{At, Span};
use p10_core::{LoopKeyword, Value};
use std::alloc::{AllocError, Global};

/// What is known of a loop whose statements are compiled: the span of its tree, its keyword, and where its jumps and its third clause
/// begin.
#[derive(Clone, Copy)]
pub struct Looping {
    pub span: Span,
    pub keyword: LoopKeyword,
    pub jumps: usize,
    pub third: usize,
}

impl Looping {
    /// A loop with a keyword whose jumps and third clause begin at places.
    pub fn new(keyword: LoopKeyword, span: Span, jumps: usize, third: usize) -> Looping
        ensures { result ≡ record { span = span; keyword = keyword; jumps = jumps; third = third } }
    {
        Looping {
            span,
            keyword,
            jumps,
            third,
        }
    }
}

impl<'p> Site<'p, '_> {
    /// A value that isn't used: what it owes is paid.
    pub fn discard_code(
        &self,
        v: &'p Value,
        span: Span,
        at: usize,
    ) -> Result<Vec<Op<'p>>, AllocError>
        ensures { IfOk result (λ code. map plain_op code.items ≡ discard_code (plain_site self.now) span at (plain_value v.now)) }
    {
        let start = self.statement_start(at)?.part()?;
        let cost = debt(start.debt, v)?;
        let code = self.form_code(v, start)?;
        let next = place_after(past(at, code.as_slice())?, 1)?;
        ended(code, op(cost, span, Action::Jump(next)))
    }

    /// `assert`.
    pub fn assert_code(&self, v: &'p Value, call: At, at: usize) -> Result<Vec<Op<'p>>, AllocError>
        ensures { IfOk result (λ code. (j : PlainExits) (here : At) → map plain_op code.items ≡ form_code (plain_site self.now) j at here (asserts call (plain_value v.now))) }
    {
        let start = self.statement_start(at)?.part()?;
        let Part {
            code,
            debt,
            operand,
        } = self.part(v, start)?;
        ended(code, op(debt, call.span, Action::Verify(operand)))
    }

    /// `return`.
    pub fn return_code(
        &self,
        v: &'p Option<Value>,
        around: Around,
    ) -> Result<Vec<Op<'p>>, AllocError>
        ensures { IfOk result (λ code. (keyword : Span) → map plain_op code.items ≡ form_code (plain_site self.now) (plain_exits around.exits) around.at around.here (return keyword (option_map plain_value v.now))) }
    {
        match v {
            Some(v) => self.value_returned(v, around),
            None => {
                let action = Action::Return(around.exits.all_close, None);
                one(self.alloc, op(1, around.here.span, action))
            }
        }
    }

    /// `return` of a value.
    fn value_returned(&self, v: &'p Value, around: Around) -> Result<Vec<Op<'p>>, AllocError>
        ensures { IfOk result (λ code. (keyword : Span) → map plain_op code.items ≡ form_code (plain_site self.now) (plain_exits around.exits) around.at around.here (return keyword (Some (plain_value v.now)))) }
    {
        let start = self.statement_start(around.at)?.part()?;
        let Part {
            code,
            debt,
            operand,
        } = self.part(v, start)?;
        let action = Action::Return(around.exits.all_close, Some(operand));
        ended(code, op(debt, around.here.span, action))
    }

    /// A loop from its jumps on, whose body and third clause are compiled.
    pub fn loop_rest(
        &self,
        test: &'p Option<Value>,
        body: Vec<Op<'p>>,
        third: Vec<Op<'p>>,
        w: Looping,
    ) -> Result<Vec<Op<'p>>, AllocError>
        ensures { IfOk result (λ code. map plain_op code.items ≡ turned_code (plain_site self.now) w.span w.keyword (option_map plain_value test.now) w.jumps w.third (map plain_op body.entry.items) (map plain_op third.entry.items)) }
    {
        let body_at = place_after(w.jumps, 4)?;
        let test_at = past(w.third, third.as_slice())?;
        let tested = self.loop_test(test, w.span, test_at, body_at)?;
        let end = past(test_at, tested.as_slice())?;
        let start = loop_start(w.keyword, body_at, test_at);
        let jumps = loop_jumps(self.alloc, w, start, end, test_at)?;
        joined(jumps, joined(body, joined(third, tested)?)?)
    }

    /// The value of a `switch`.
    pub fn switch_value(&self, v: &'p Value, at: usize) -> Result<Vec<Op<'p>>, AllocError>
        ensures { IfOk result (λ code. map plain_op code.items ≡ into_code (plain_site self.now) (free (plain_site self.now)) (free (plain_site self.now) + 1) 1 at (plain_value v.now)) }
    {
        self.into_code(v, self.statement_start(at)?.part()?)
    }

    /// A value that decides a branch, where so many steps are owed.
    pub fn test_part(&self, v: &'p Value, d: u64, at: usize) -> Result<Part<'p>, AllocError>
        ensures code { IfOk result (λ p. map plain_op p.code.items ≡ value_code (plain_site self.now) (free (plain_site self.now)) (free (plain_site self.now) + 1) d at (plain_value v.now)) }
        ensures debt { IfOk result (λ p. p.debt ≡ debt d (plain_value v.now)) }
        ensures operand { IfOk result (λ p. plain_operand p.operand ≡ operand (plain_site self.now) (free (plain_site self.now)) (plain_value v.now)) }
    {
        self.part(v, Start::at_slot(self.free()?, d, at)?)
    }

    /// A loop's test, which goes to a place or past itself; where a `for` has none, its step is paid.
    pub fn loop_test(
        &self,
        test: &'p Option<Value>,
        span: Span,
        at: usize,
        hit: usize,
    ) -> Result<Vec<Op<'p>>, AllocError>
        ensures code { IfOk result (λ code. map plain_op code.items ≡ loop_test (plain_site self.now) span at (option_map plain_value test.now) hit (at + loop_test_length (plain_site self.now) at (option_map plain_value test.now))) }
        ensures length { IfOk result (λ code. length (map plain_op code.items) ≡ loop_test_length (plain_site self.now) at (option_map plain_value test.now)) }
    {
        match test {
            Some(v) => self.tested(v, span, at, hit),
            None => one(self.alloc, op(1, span, Action::Jump(hit))),
        }
    }

    /// A loop's test that is there.
    fn tested(
        &self,
        v: &'p Value,
        span: Span,
        at: usize,
        hit: usize,
    ) -> Result<Vec<Op<'p>>, AllocError>
        ensures code { IfOk result (λ code. map plain_op code.items ≡ test_code (plain_site self.now) span 0 at (plain_value v.now) hit (at + test_length (plain_site self.now) 0 at (plain_value v.now))) }
        ensures length { IfOk result (λ code. length (map plain_op code.items) ≡ test_length (plain_site self.now) 0 at (plain_value v.now)) }
    {
        let part = self.test_part(v, 0, at)?;
        let end = past_branch(at, part.code.as_slice())?;
        branched(part, span, hit, end)
    }
}

/// `break` or `continue`, which closes so many blocks and goes to a place.
pub fn leave_code<'p>(
    alloc: Global,
    span: Span,
    close: u32,
    to: usize,
) -> Result<Vec<Op<'p>>, AllocError>
    ensures { IfOk result (λ code. map plain_op code.items ≡ op 1 span (leave close to) ∷ []) }
{
    one(alloc, op(1, span, Action::Leave(close, to)))
}

/// An empty statement.
pub fn empty_code<'p>(alloc: Global, span: Span, at: usize) -> Result<Vec<Op<'p>>, AllocError>
    ensures { IfOk result (λ code. map plain_op code.items ≡ op 1 span (jump (at + 1)) ∷ []) }
{
    let next = place_after(at, 1)?;
    one(alloc, op(1, span, Action::Jump(next)))
}

/// `if` with both branches.
pub fn if_code<'p>(
    alloc: Global,
    span: Span,
    test: Vec<Op<'p>>,
    first: Vec<Op<'p>>,
    end: usize,
    second: Vec<Op<'p>>,
) -> Result<Vec<Op<'p>>, AllocError>
    ensures { IfOk result (λ code. map plain_op code.items ≡ if_code span (map plain_op test.entry.items) (map plain_op first.entry.items) end (map plain_op second.entry.items)) }
{
    let jump = op(0, span, Action::Jump(end));
    joined(test, joined(first, led(alloc, jump, second)?)?)
}

/// Where a loop begins: `do` with its body.
pub fn loop_start(keyword: LoopKeyword, body: usize, test: usize) -> usize
    ensures { result ≡ loop_start keyword body test }
{
    match keyword {
        LoopKeyword::While | LoopKeyword::For => test,
        LoopKeyword::Do => body,
    }
}

/// The jumps of a loop: to its start, to the third clause, past the loop and to the test.
fn loop_jumps<'p>(
    alloc: Global,
    w: Looping,
    start: usize,
    end: usize,
    test_at: usize,
) -> Result<Vec<Op<'p>>, AllocError>
    ensures { IfOk result (λ code. map plain_op code.items ≡ op 0 w.span (jump start) ∷ op 0 w.span (jump w.third) ∷ op 0 w.span (jump end) ∷ op 0 w.span (jump test_at) ∷ []) }
{
    let last = one(alloc, op(0, w.span, Action::Jump(test_at)))?;
    let rest = led(alloc, op(0, w.span, Action::Jump(end)), last)?;
    let rest = led(alloc, op(0, w.span, Action::Jump(w.third)), rest)?;
    led(alloc, op(0, w.span, Action::Jump(start)), rest)
}

/// A loop, from its code before the jumps and that from the jumps on.
pub fn looped_code<'p>(
    alloc: Global,
    tracked: bool,
    span: Span,
    at: usize,
    before: Vec<Op<'p>>,
    rest: Vec<Op<'p>>,
) -> Result<Vec<Op<'p>>, AllocError>
    ensures { IfOk result (λ code. map plain_op code.items ≡ op 1 span (jump (at + 1)) ∷ block_code tracked span (map plain_op before.entry.items ++ map plain_op rest.entry.items)) }
{
    let next = place_after(at, 1)?;
    let code = block_code(alloc, tracked, span, joined(before, rest)?)?;
    led(alloc, op(1, span, Action::Jump(next)), code)
}

/// The parts of a `switch` after its value: the choice, a jump past the body, the body.
pub fn switch_parts<'p>(
    alloc: Global,
    span: Span,
    choice: Action<'p>,
    end: usize,
    body: Vec<Op<'p>>,
) -> Result<Vec<Op<'p>>, AllocError>
    ensures { IfOk result (λ code. map plain_op code.items ≡ op 0 span (plain_action choice.entry) ∷ op 0 span (jump end) ∷ map plain_op body.entry.items) }
{
    let rest = led(alloc, op(0, span, Action::Jump(end)), body)?;
    led(alloc, op(0, span, choice), rest)
}
