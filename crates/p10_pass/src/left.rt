//! What statements leave.

ghost use Rattle.std.specs.Prelude.{◌≡◌, [], OnOk, IfOk, None};
ghost use Rattle.std.specs.Option.{option_map};
ghost use Rattle.p10_range.specs.Ranges.{interval_of};
ghost use Rattle.p10_absx.specs.Environments.{hull_reached};
ghost use Rattle.p10_pass.specs.Passing.{nowhere, reached, with_calls, hull_range, followed};
ghost use Rattle.p10_pass.specs.Leaving.{values_in, left_of};

use p10_absx::Env;
use p10_base::Span;
use p10_range::{Range, hull};
use std::alloc::{AllocError, Global};

/// A condition of a certificate that fails.
#[derive(Clone, Copy, Debug, PartialEq, Eq)]
pub struct Fail {
    /// Its number.
    pub k: u8,
    /// Its place.
    pub at: Span,
}

/// A loop whose rank doesn't stand by the pass alone.
#[derive(Drop)]
pub struct Weak {
    /// The loop's number.
    pub at: u32,
    /// What is known at its entry.
    pub entry: Env,
    /// Which of K8, K9 and K10 fail, by number.
    pub fails: Vec<Fail>,
}

/// What statements leave: for each way in which they end what is known then, `None` where no state ends so, and what fails in
/// them, in text order.
#[derive(Drop)]
pub struct Left {
    pub normal: Option<Env>,
    pub breaks: Option<Env>,
    pub continues: Option<Env>,
    pub returns: Option<Env>,
    /// The hull of the ranges that are returned.
    pub returned: Option<Range>,
    /// The names of the calls whose arguments aren't in their claimed ranges (K3).
    pub arguments: Vec<Span>,
    /// The words `return` whose values aren't in the claimed range (K5).
    pub results: Vec<Span>,
    /// The loops whose claimed ranges don't hold at entry (K6).
    pub entries: Vec<Span>,
    /// The loops whose claimed ranges don't hold on their ways back (K7).
    pub backs: Vec<Span>,
    /// The loops whose ranks don't stand (K8 to K10).
    pub weak: Vec<Weak>,
}

impl Left {
    /// No state ends in any way.
    pub(crate) fn nowhere(alloc: Global) -> Left
        ensures { left_of result ≡ nowhere }
    {
        Left::reached(alloc, None)
    }

    /// States end normally, if there are any.
    pub(crate) fn reached(alloc: Global, env: Option<Env>) -> Left
        ensures { left_of result ≡ reached (values_in env) }
    {
        Left {
            normal: env,
            breaks: None,
            continues: None,
            returns: None,
            returned: None,
            arguments: Vec::new(alloc),
            results: Vec::new(alloc),
            entries: Vec::new(alloc),
            backs: Vec::new(alloc),
            weak: Vec::new(alloc),
        }
    }

    /// The same after calls of which these fail.
    pub(crate) fn after_calls(alloc: Global, names: Vec<Span>, env: Option<Env>) -> Left
        ensures { left_of result ≡ with_calls names.items (reached (values_in env)) }
    {
        let mut left = Left::reached(alloc, env);
        left.arguments = names;
        left
    }

    /// Adds all ends of a part that follows: it gives the normal one.
    pub(crate) fn follow(&mut self, alloc: Global, more: &mut Left) -> Result<(), AllocError>
        ensures { OnOk result (left_of self.new ≡ followed (left_of self.old) (left_of more.old)) }
    {
        self.normal = more.normal.take();
        unite(alloc, &mut self.breaks, &mut more.breaks)?;
        unite(alloc, &mut self.continues, &mut more.continues)?;
        unite(alloc, &mut self.returns, &mut more.returns)?;
        self.returned = hull_range(self.returned, more.returned);
        self.arguments.extend_from_slice(more.arguments.as_slice())?;
        self.results.extend_from_slice(more.results.as_slice())?;
        self.entries.extend_from_slice(more.entries.as_slice())?;
        self.backs.extend_from_slice(more.backs.as_slice())?;
        self.weak.append(&mut more.weak)?;
        Ok(())
    }
}

/// Adds to what is known in one way what is known in another one, where a state comes in it.
pub(crate) fn unite(
    alloc: Global,
    into: &mut Option<Env>,
    more: &mut Option<Env>,
) -> Result<(), AllocError>
    ensures { OnOk result (values_in into.new ≡ hull_reached (values_in into.old) (values_in more.old)) }
{
    if let Some(second) = more.take() {
        let united = hull_with(alloc, into.take(), second)?;
        *into = Some(united);
    }
    Ok(())
}

/// The hull of an environment and another one, if there is one.
fn hull_with(alloc: Global, first: Option<Env>, second: Env) -> Result<Env, AllocError>
    ensures { IfOk result (λ env. values_in (Some env) ≡ hull_reached (values_in first) (Some second.values)) }
{
    match first {
        Some(first) => first.hull_with(alloc, &second),
        None => Ok(second),
    }
}

/// The hull of two ranges that may be lacking.
pub(crate) fn hull_range(a: Option<Range>, b: Option<Range>) -> Option<Range>
    ensures { option_map interval_of result ≡ hull_range (option_map interval_of a) (option_map interval_of b) }
{
    match (a, b) {
        (Some(a), Some(b)) => Some(hull(a, b)),
        (Some(a), None) => Some(a),
        (None, b) => b,
    }
}
