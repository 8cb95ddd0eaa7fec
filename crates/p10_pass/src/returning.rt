//! `return`, `break` and `continue`.

ghost use Rattle.std.specs.Prelude.{◌≡◌, [], ◌∷◌, Some, if◌then◌else◌, OnOk, IfOk};
ghost use Rattle.std.specs.Option.{option_map};
ghost use Rattle.p10_core.specs.Views.{plain_value};
ghost use Rattle.p10_range.specs.Ranges.{interval_of};
ghost use Rattle.p10_cert.specs.Claims.{value_of};
ghost use Rattle.p10_absx.specs.Abstract.{abstract_of};
ghost use Rattle.p10_pass.specs.Arguments.{failing_in};
ghost use Rattle.p10_pass.specs.Passing.{nowhere, with_calls, result_lies, range_returned, value_returned};
ghost use Rattle.p10_pass.specs.Leaving.{values_in, left_of};
ghost use Rattle.p10_pass.specs.Manners.{manner_by};
ghost use Rattle.p10_pass.specs.private.Returning.{returned};

use crate::arguments::put_failing;
use crate::left::Left;
use crate::manner::Manner;
use p10_absx::{Abs, Env, lies_within};
use p10_base::Span;
use p10_cert::ValueClaim;
use p10_core::Value;
use p10_range::Range;
use std::alloc::{AllocError, Global};

impl Left {
    /// States end by a `break`.
    pub(crate) fn broken(alloc: Global, env: Env) -> Left
        ensures { left_of result ≡ record nowhere { breaks = Some env.values } }
    {
        let mut left = Left::nowhere(alloc);
        left.breaks = Some(env);
        left
    }

    /// States end by a `continue`.
    pub(crate) fn continued(alloc: Global, env: Env) -> Left
        ensures { left_of result ≡ record nowhere { continues = Some env.values } }
    {
        let mut left = Left::nowhere(alloc);
        left.continues = Some(env);
        left
    }

    /// States end by a `return`.
    pub(crate) fn returning(alloc: Global, env: Env) -> Left
        ensures { left_of result ≡ record nowhere { returns = Some env.values } }
    {
        let mut left = Left::nowhere(alloc);
        left.returns = Some(env);
        left
    }

    /// Puts failing calls before those of a part.
    pub(crate) fn put_calls(&mut self, names: &mut Vec<Span>) -> Result<(), AllocError>
        ensures { OnOk result (left_of self.new ≡ with_calls names.old.items (left_of self.old)) }
    {
        names.extend_from_slice(self.arguments.as_slice())?;
        std::mem::swap(&mut self.arguments, names);
        Ok(())
    }
}

/// Whether a returned range lies in the claimed range of the result, if one is claimed (K5).
fn result_lies(claim: Option<ValueClaim>, range: Range) -> bool
    ensures { result ≡ result_lies (option_map value_of claim) (interval_of range) }
{
    match claim {
        Some(ValueClaim::Ints(claimed)) => lies_within(range, claimed),
        Some(ValueClaim::Pointer) => true,
        Some(ValueClaim::Void) => true,
        None => true,
    }
}

/// `return e;` of an integer that has a range.
fn range_returned(
    alloc: Global,
    m: &Manner<'_, '_>,
    keyword: Span,
    range: Range,
    env: Env,
) -> Result<Left, AllocError>
    ensures { IfOk result (λ l. left_of l ≡ record nowhere { returns = Some env.values; returned = Some (interval_of range); results = if result_lies (manner_by m.now).result (interval_of range) then [] else keyword ∷ [] }) }
{
    let mut left = Left::returning(alloc, env);
    left.returned = Some(range);
    if !result_lies(m.result, range) {
        left.results.push(keyword)?;
    }
    Ok(left)
}

/// `return e;` of an integer, with the span of its keyword.
fn integer_returned(
    alloc: Global,
    m: &Manner<'_, '_>,
    keyword: Span,
    value: Option<Abs>,
    env: Env,
) -> Result<Left, AllocError>
    ensures { IfOk result (λ l. left_of l ≡ range_returned (manner_by m.now) keyword (option_map abstract_of value) env.values) }
{
    match value {
        Some(a) => range_returned(alloc, m, keyword, a.range, env),
        None => Ok(Left::nowhere(alloc)),
    }
}

/// `return e;` without its failing calls.
fn value_returned(
    alloc: Global,
    m: &Manner<'_, '_>,
    keyword: Span,
    v: &Value,
    env: Env,
) -> Result<Left, AllocError>
    ensures { IfOk result (λ l. left_of l ≡ value_returned (manner_by m.now) keyword (plain_value v.now) env.values) }
{
    if v.ty.is_integer() {
        let mut env = env;
        let value = env.value(alloc, m.calls, v)?;
        integer_returned(alloc, m, keyword, value, env)
    } else {
        Ok(Left::returning(alloc, env))
    }
}

/// `return`, with the span of its keyword and its value, if it has one.
pub(crate) fn returned(
    alloc: Global,
    m: &Manner<'_, '_>,
    keyword: Span,
    v: &Option<Value>,
    env: Env,
) -> Result<Left, AllocError>
    ensures { IfOk result (λ l. left_of l ≡ returned (manner_by m.now) keyword (option_map plain_value v.now) env.values) }
{
    match v {
        Some(v) => {
            let mut env = env;
            let mut names = Vec::new(alloc);
            put_failing(alloc, m.calls, v, &mut env, &mut names)?;
            let mut left = value_returned(alloc, m, keyword, v, env)?;
            left.put_calls(&mut names)?;
            Ok(left)
        }
        None => Ok(Left::returning(alloc, env)),
    }
}
