//! Assignments, updates, declarations and values that aren't kept.

ghost use Rattle.std.specs.Prelude.{◌≡◌, ◌++◌, map, slice_get, Some, None, is_some, true, if◌then◌else◌, OnOk, IfOk};
ghost use Rattle.std.specs.Option.{option_map, option_and_then, option_copied};
ghost use Rattle.p10_core.specs.Types.{plain_type};
ghost use Rattle.p10_core.specs.Constants.{integer_of};
ghost use Rattle.p10_core.specs.Typed.{type_of};
ghost use Rattle.p10_core.specs.Views.{plain_value, plain_place, plain_item, plain_initializer, plain_variable, plain_written};
ghost use Rattle.p10_absx.specs.Abstract.{abstract_of};
ghost use Rattle.p10_absx.specs.Environments.{known, learned};
ghost use Rattle.p10_absx.specs.Operators.{converted_abstract, binary_abstract};
ghost use Rattle.p10_absx.specs.Assessing.{assess, known_where, abstract_value};
ghost use Rattle.p10_absx.specs.Trails.{with_values};
ghost use Rattle.p10_pass.specs.Arguments.{failing_in, failing_at};
ghost use Rattle.p10_pass.specs.Passing.{reached, with_calls, and_then_pass, stored, before_update, set_value, updated_value, value_passed, items_passed, integer_declared, other_declared, declared};
ghost use Rattle.p10_pass.specs.private.Items.{written_passed};
ghost use Rattle.p10_pass.specs.Leaving.{values_in, left_of};
ghost use Rattle.p10_pass.specs.Manners.{manner_by};

use crate::arguments::{has_value, put_failing, put_failing_at};
use crate::left::Left;
use crate::manner::Manner;
use p10_absx::{Abs, Env, binary_value, converted, whole_type};
use p10_core::{CType, Initializer, Item, Place, PlaceForm, Value, Variable, Written, integer_of};
use p10_int::{BinOp, IntType};
use std::alloc::{AllocError, Global};

/// The environment in which a variable has another value, if it is in scope.
fn store_variable(n: u32, a: Abs, env: &mut Env)
    ensures { env.new ≡ with_values env.old (if is_some (known env.old.values n) then learned env.old.values n (abstract_of a) else env.old.values) }
{
    if env.get(n).is_some() {
        env.set(n, a);
    }
}

/// The environment in which a place has another value: only integer frame variables in scope are known.
fn store(target: &Place, a: Abs, env: &mut Env)
    ensures { env.new ≡ with_values env.old (stored (plain_place target.now) (abstract_of a) env.old.values) }
{
    match &target.form {
        PlaceForm::Var(n) => store_variable(*n, a, env),
        PlaceForm::Global(_)
        | PlaceForm::Literal(_, _)
        | PlaceForm::Index(_, _)
        | PlaceForm::Member(_, _)
        | PlaceForm::Deref(_) => {}
    }
}

/// The same for an owned environment.
fn stored(target: &Place, a: Abs, env: Env) -> Option<Env>
    ensures { values_in result ≡ Some (stored (plain_place target.now) (abstract_of a) env.values) }
{
    let mut env = env;
    store(target, a, &mut env);
    Some(env)
}

/// What a place has before it is updated.
fn before_update(target: &Place, env: &Env) -> Abs
    ensures { abstract_of result ≡ before_update (plain_place target.now) env.now.values }
{
    match &target.form {
        PlaceForm::Var(n) => match env.get(*n) {
            Some(a) => a,
            None => whole_type(integer_of(&target.ty)),
        },
        PlaceForm::Global(_)
        | PlaceForm::Literal(_, _)
        | PlaceForm::Index(_, _)
        | PlaceForm::Member(_, _)
        | PlaceForm::Deref(_) => whole_type(integer_of(&target.ty)),
    }
}

/// The environment after an assignment: no state is left where an integer has no value.
fn set_value(target: &Place, t: &CType, value: Option<Abs>, env: Env) -> Option<Env>
    ensures { values_in result ≡ set_value (plain_place target.now) (plain_type t.now) (option_map abstract_of value) env.values }
{
    if !t.is_integer() {
        return Some(env);
    }
    match value {
        Some(a) => stored(target, a, env),
        None => None,
    }
}

/// `P = e;`
pub(crate) fn set_passed(
    alloc: Global,
    m: &Manner<'_, '_>,
    target: &Place,
    v: &Value,
    env: Env,
) -> Result<Left, AllocError>
    ensures { IfOk result (λ l. left_of l ≡ with_calls (failing_at (manner_by m.now).calls (plain_place target.now) env.values ++ failing_in (manner_by m.now).calls (plain_value v.now) env.values) (reached (set_value (plain_place target.now) (type_of (plain_value v.now)) (abstract_value (manner_by m.now).calls env.values (plain_value v.now)) env.values))) }
{
    let mut env = env;
    let mut names = Vec::new(alloc);
    put_failing_at(alloc, m.calls, target, &mut env, &mut names)?;
    put_failing(alloc, m.calls, v, &mut env, &mut names)?;
    let value = env.value(alloc, m.calls, v)?;
    Ok(Left::after_calls(alloc, names, set_value(target, &v.ty, value, env)))
}

/// The result of the operator of an update, before its conversion back.
fn update_result(op: BinOp, t: &CType, target: &Place, by: Option<Abs>, env: &Env) -> Option<Abs>
    ensures { option_map abstract_of result ≡ option_and_then (λ b. binary_abstract op (integer_of (plain_type t.now)) (converted_abstract (integer_of (plain_type t.now)) (before_update (plain_place target.now) env.now.values)) b) (option_map abstract_of by) }
{
    match by {
        Some(by) => {
            let kind = integer_of(t);
            binary_value(op, kind, converted(kind, before_update(target, env)), by)
        }
        None => None,
    }
}

/// The environment after an update: no state is left where the result of an integer has no value.
fn updated_value(op: BinOp, t: &CType, target: &Place, by: Option<Abs>, env: Env) -> Option<Env>
    ensures { values_in result ≡ updated_value op (plain_type t.now) (plain_place target.now) (option_map abstract_of by) env.values }
{
    if !target.ty.is_integer() {
        return Some(env);
    }
    match update_result(op, t, target, by, &env) {
        Some(a) => stored(target, converted(integer_of(&target.ty), a), env),
        None => None,
    }
}

/// `P op= e;`
pub(crate) fn update_passed(
    alloc: Global,
    m: &Manner<'_, '_>,
    op: BinOp,
    t: &CType,
    target: &Place,
    v: &Value,
    env: Env,
) -> Result<Left, AllocError>
    ensures { IfOk result (λ l. left_of l ≡ with_calls (failing_at (manner_by m.now).calls (plain_place target.now) env.values ++ failing_in (manner_by m.now).calls (plain_value v.now) env.values) (reached (updated_value op (plain_type t.now) (plain_place target.now) (abstract_value (manner_by m.now).calls env.values (plain_value v.now)) env.values))) }
{
    let mut env = env;
    let mut names = Vec::new(alloc);
    put_failing_at(alloc, m.calls, target, &mut env, &mut names)?;
    put_failing(alloc, m.calls, v, &mut env, &mut names)?;
    let value = env.value(alloc, m.calls, v)?;
    Ok(Left::after_calls(alloc, names, updated_value(op, t, target, value, env)))
}

/// The copy of a structure.
pub(crate) fn copy_passed(
    alloc: Global,
    m: &Manner<'_, '_>,
    target: &Place,
    source: &Place,
    env: Env,
) -> Result<Left, AllocError>
    ensures { IfOk result (λ l. left_of l ≡ with_calls (failing_at (manner_by m.now).calls (plain_place target.now) env.values ++ failing_at (manner_by m.now).calls (plain_place source.now) env.values) (reached (Some env.values))) }
{
    let mut env = env;
    let mut names = Vec::new(alloc);
    put_failing_at(alloc, m.calls, target, &mut env, &mut names)?;
    put_failing_at(alloc, m.calls, source, &mut env, &mut names)?;
    Ok(Left::after_calls(alloc, names, Some(env)))
}

/// `assert(e);`
pub(crate) fn assert_passed(
    alloc: Global,
    m: &Manner<'_, '_>,
    v: &Value,
    env: Env,
) -> Result<Left, AllocError>
    ensures { IfOk result (λ l. left_of l ≡ with_calls (failing_in (manner_by m.now).calls (plain_value v.now) env.values) (reached (known_where true env.values (assess (manner_by m.now).calls (plain_value v.now) env.values)))) }
{
    let mut env = env;
    let mut names = Vec::new(alloc);
    put_failing(alloc, m.calls, v, &mut env, &mut names)?;
    let held = env.assumed(alloc, m.calls, v, true)?;
    Ok(Left::after_calls(alloc, names, held))
}

/// A value that isn't kept: no state is left where it has none.
pub(crate) fn value_passed(
    alloc: Global,
    m: &Manner<'_, '_>,
    v: &Value,
    env: Env,
) -> Result<Left, AllocError>
    ensures { IfOk result (λ l. left_of l ≡ value_passed (manner_by m.now) (plain_value v.now) env.values) }
{
    let mut env = env;
    let mut names = Vec::new(alloc);
    put_failing(alloc, m.calls, v, &mut env, &mut names)?;
    let left = has_value(alloc, m.calls, v, &mut env)?;
    Ok(Left::after_calls(alloc, names, env_if(left, env)))
}

/// An environment, if a state is left.
pub(crate) fn env_if(left: bool, env: Env) -> Option<Env>
    ensures { values_in result ≡ (if left then Some env.values else None) }
{
    if left { Some(env) } else { None }
}

/// What is written of an item of an initialiser's list.
fn written_passed(
    alloc: Global,
    m: &Manner<'_, '_>,
    written: &Written,
    env: Env,
) -> Result<Left, AllocError>
    ensures { IfOk result (λ l. left_of l ≡ written_passed (manner_by m.now) (plain_written written.now) env.values) }
{
    match written {
        Written::Scalar(v) => value_passed(alloc, m, v, env),
        Written::Text(_) => Ok(Left::reached(alloc, Some(env))),
    }
}

/// Goes on with an item.
fn go_on_with(
    alloc: Global,
    m: &Manner<'_, '_>,
    item: &Item,
    total: &mut Left,
) -> Result<(), AllocError>
    ensures { OnOk result (left_of total.new ≡ and_then_pass (left_of total.old) (written_passed (manner_by m.now) (plain_item item.now).written)) }
{
    match total.normal.take() {
        Some(env) => {
            let mut more = written_passed(alloc, m, &item.written, env)?;
            total.follow(alloc, &mut more)
        }
        None => Ok(()),
    }
}

/// The values of a list, one after the other.
fn items_passed(
    alloc: Global,
    m: &Manner<'_, '_>,
    items: &[Item],
    env: Env,
) -> Result<Left, AllocError>
    ensures { IfOk result (λ l. left_of l ≡ items_passed (manner_by m.now) (map plain_item items.now) env.values) }
{
    let mut total = Left::reached(alloc, Some(env));
    for item in items {
        go_on_with(alloc, m, item, &mut total)?;
    }
    Ok(total)
}

/// The environment in which something is known of a variable, if it is anything.
fn known_if(n: u32, value: Option<Abs>, env: Env) -> Option<Env>
    ensures { values_in result ≡ option_map (learned env.values n) (option_map abstract_of value) }
{
    match value {
        Some(a) => {
            let mut env = env;
            env.set(n, a);
            Some(env)
        }
        None => None,
    }
}

/// A variable that is in scope already gets the value of its initialiser.
fn initialized(
    alloc: Global,
    m: &Manner<'_, '_>,
    n: u32,
    v: &Value,
    env: Env,
) -> Result<Left, AllocError>
    ensures { IfOk result (λ l. left_of l ≡ with_calls (failing_in (manner_by m.now).calls (plain_value v.now) env.values) (reached (option_map (learned env.values n) (abstract_value (manner_by m.now).calls env.values (plain_value v.now))))) }
{
    let mut env = env;
    let mut names = Vec::new(alloc);
    put_failing(alloc, m.calls, v, &mut env, &mut names)?;
    let value = env.value(alloc, m.calls, v)?;
    Ok(Left::after_calls(alloc, names, known_if(n, value, env)))
}

/// The declaration of an integer frame variable: it has any value of its type, and then that of its initialiser.
fn integer_declared(
    alloc: Global,
    m: &Manner<'_, '_>,
    n: u32,
    kind: IntType,
    initial: &Initializer,
    env: Env,
) -> Result<Left, AllocError>
    ensures { IfOk result (λ l. left_of l ≡ integer_declared (manner_by m.now) n kind (plain_initializer initial.now) env.values) }
{
    let mut env = env;
    env.set(n, whole_type(kind));
    match initial {
        Initializer::Single(v) => initialized(alloc, m, n, v, env),
        Initializer::Absent | Initializer::Copied(_) | Initializer::Listed(_, _) => {
            Ok(Left::reached(alloc, Some(env)))
        }
    }
}

/// The declaration of another variable.
fn other_declared(
    alloc: Global,
    m: &Manner<'_, '_>,
    initial: &Initializer,
    env: Env,
) -> Result<Left, AllocError>
    ensures { IfOk result (λ l. left_of l ≡ other_declared (manner_by m.now) (plain_initializer initial.now) env.values) }
{
    match initial {
        Initializer::Absent => Ok(Left::reached(alloc, Some(env))),
        Initializer::Single(v) => value_passed(alloc, m, v, env),
        Initializer::Copied(source) => copied(alloc, m, source, env),
        Initializer::Listed(_, items) => items_passed(alloc, m, items.as_slice(), env),
    }
}

/// An initialiser that is a structure.
fn copied(alloc: Global, m: &Manner<'_, '_>, source: &Place, env: Env) -> Result<Left, AllocError>
    ensures { IfOk result (λ l. left_of l ≡ with_calls (failing_at (manner_by m.now).calls (plain_place source.now) env.values) (reached (Some env.values))) }
{
    let mut env = env;
    let mut names = Vec::new(alloc);
    put_failing_at(alloc, m.calls, source, &mut env, &mut names)?;
    Ok(Left::after_calls(alloc, names, Some(env)))
}

/// The declaration of a variable.
fn variable_declared(
    alloc: Global,
    m: &Manner<'_, '_>,
    n: u32,
    v: &Variable<'_>,
    initial: &Initializer,
    env: Env,
) -> Result<Left, AllocError>
    ensures { IfOk result (λ l. left_of l ≡ declared (manner_by m.now) n (Some (plain_variable v.now)) (plain_initializer initial.now) env.values) }
{
    if v.frame && v.ty.is_integer() {
        integer_declared(alloc, m, n, integer_of(&v.ty), initial, env)
    } else {
        other_declared(alloc, m, initial, env)
    }
}

/// The variable with a number.
fn variable_at<'a, 's>(variables: &'a [Variable<'s>], n: usize) -> Option<&'a Variable<'s>>
    ensures { option_map plain_variable (option_copied result) ≡ slice_get (map plain_variable variables.now) n }
{
    variables.get(n)
}

/// A declaration.
pub(crate) fn declared(
    alloc: Global,
    m: &Manner<'_, '_>,
    n: u32,
    initial: &Initializer,
    env: Env,
) -> Result<Left, AllocError>
    ensures { IfOk result (λ l. left_of l ≡ declared (manner_by m.now) n (slice_get (manner_by m.now).variables n) (plain_initializer initial.now) env.values) }
{
    match variable_at(m.variables, n as usize) {
        Some(v) => variable_declared(alloc, m, n, v, initial, env),
        None => Ok(Left::reached(alloc, Some(env))),
    }
}
