//! Environments in which each entry is changed, or looked at, by its variable.

ghost use Rattle.std.specs.Prelude.{◌≡◌, map, None, if◌then◌else◌, OnOk, IfOk};
ghost use Rattle.std.specs.Option.{option_map};
ghost use Rattle.p10_core.specs.Views.{plain_variable};
ghost use Rattle.p10_range.specs.Ranges.{interval_of};
ghost use Rattle.p10_absx.specs.Abstract.{offset_of, abstract_of};
ghost use Rattle.p10_absx.specs.Environments.{known};
ghost use Rattle.p10_absx.specs.Trails.{with_values};
ghost use Rattle.p10_pass.specs.Scopes.{changed_each, offset_in};
ghost use Rattle.p10_pass.specs.Marks.{is_marked};
ghost use Rattle.p10_pass.specs.private.Renewing.{range_at, renewal, renewed, entry_lies, entries_lie};

use crate::marks::is_marked;
use p10_absx::{Abs, Env, lies_within, values, whole_type};
use p10_core::{Variable, integer_of};
use p10_range::Range;
use std::alloc::AllocError;

/// What each entry of an environment becomes.
#[derive(Clone, Copy)]
pub(crate) enum Renewal<'a> {
    /// Any value of its type where the variable is marked.
    Forgotten(&'a [bool]),
    /// The same range, and the offset that another environment has, or none where the variable is marked.
    Restored(&'a [bool], &'a Env),
    /// The range at its number, with its own offset.
    Headed(&'a [Range]),
}

/// The range at a variable's number.
fn range_at(ranges: &[Range], n: u32, v: &Variable<'_>) -> Range
    ensures { interval_of result ≡ range_at (map interval_of ranges.now) n (plain_variable v.now) }
{
    match ranges.get(n as usize) {
        Some(range) => *range,
        None => values(integer_of(&v.ty)),
    }
}

/// The offset that an environment has of a variable, if it isn't marked.
fn kept_offset(marks: &[bool], entry: &Env, n: u32) -> Option<(u32, Range)>
    ensures { option_map offset_of result ≡ (if is_marked marks.now n then None else offset_in (known entry.now.values n)) }
{
    if is_marked(marks, n as usize) {
        return None;
    }
    match entry.get(n) {
        Some(a) => a.offset,
        None => None,
    }
}

/// What an entry becomes.
fn entry_renewed(how: &Renewal<'_>, n: u32, v: &Variable<'_>, a: Abs) -> Abs
    ensures { abstract_of result ≡ renewal how.now n (plain_variable v.now) (abstract_of a) }
{
    match how {
        Renewal::Forgotten(marks) => {
            if is_marked(marks, n as usize) {
                whole_type(integer_of(&v.ty))
            } else {
                a
            }
        }
        Renewal::Restored(marks, entry) => Abs {
            range: a.range,
            offset: kept_offset(marks, entry, n),
        },
        Renewal::Headed(ranges) => Abs {
            range: range_at(ranges, n, v),
            offset: Some((n, Range { lo: 0, hi: 0 })),
        },
    }
}

/// Changes the entry of a variable, if it has one.
fn renew(env: &mut Env, how: &Renewal<'_>, n: u32, v: &Variable<'_>)
    ensures { env.new ≡ with_values env.old (renewed (renewal how.now) n (plain_variable v.now) env.old.values) }
{
    if let Some(a) = env.get(n) {
        env.set(n, entry_renewed(how, n, v, a));
    }
}

/// Changes the entry of each variable. More variables than 32 bits number never fit memory, and are answered as out
/// of memory.
pub(crate) fn renew_each(
    env: &mut Env,
    how: &Renewal<'_>,
    variables: &[Variable<'_>],
) -> Result<(), AllocError>
    ensures { OnOk result (env.new ≡ with_values env.old (changed_each (renewal how.now) 0 (map plain_variable variables.now) env.old.values)) }
{
    if variables.len() > u32::MAX as usize {
        return Err(AllocError);
    }
    for (n, v) in variables.iter().enumerate() {
        renew(env, how, n as u32, v);
    }
    Ok(())
}

/// Whether the entry of a variable lies in the range at its number.
fn lies(env: &Env, ranges: &[Range], n: u32, v: &Variable<'_>) -> bool
    ensures { result ≡ entry_lies (range_at (map interval_of ranges.now) n (plain_variable v.now)) (known env.now.values n) }
{
    match env.get(n) {
        Some(a) => lies_within(a.range, range_at(ranges, n, v)),
        None => true,
    }
}

/// Whether the entry of each variable lies in the range at its number, with the same refusal.
pub(crate) fn all_lie(
    env: &Env,
    ranges: &[Range],
    variables: &[Variable<'_>],
) -> Result<bool, AllocError>
    ensures { IfOk result (λ b. b ≡ entries_lie (range_at (map interval_of ranges.now)) 0 (map plain_variable variables.now) env.now.values) }
{
    if variables.len() > u32::MAX as usize {
        return Err(AllocError);
    }
    for (n, v) in variables.iter().enumerate() {
        if !lies(env, ranges, n as u32, v) {
            return Ok(false);
        }
    }
    Ok(true)
}
