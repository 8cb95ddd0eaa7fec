//! What statements leave.

ghost use Rattle.std.specs.Prelude.{◌≡◌, OnOk, IfOk, None};
ghost use Rattle.std.specs.Option.{option_map};
ghost use Rattle.p10_core.specs.Views.{plain_statements};
ghost use Rattle.p10_walk.specs.Walking.{nowhere, reached, hull_reached, followed, beside, as_block};
ghost use Rattle.p10_walk.specs.Leaving.{ends_of};

use crate::rules::Rules;
use p10_core::Stmt;
use std::alloc::{AllocError, Global};

/// For each way in which statements end, but for `return`, what is known then: `None` where no state ends so.
#[derive(Drop)]
pub struct Ends<E> {
    pub normal: Option<E>,
    pub breaks: Option<E>,
    pub continues: Option<E>,
}

/// States end normally, if there are any.
pub(crate) fn reached<R: Rules>(e: Option<R::Env>) -> Ends<R::Env>
    ensures { ends_of R.known result ≡ reached (option_map R.known e) }
{
    Ends {
        normal: e,
        breaks: None,
        continues: None,
    }
}

/// Adds to what may be known what is known in another way, if a state comes in it.
pub(crate) fn unite<R: Rules>(
    alloc: Global,
    rules: &R,
    into: &mut Option<R::Env>,
    more: Option<R::Env>,
) -> Result<(), AllocError>
    ensures { OnOk result (option_map R.known into.new ≡ hull_reached (R.operations rules.now) (option_map R.known into.old) (option_map R.known more)) }
{
    match more {
        Some(other) => match into {
            Some(e) => rules.hull_with(alloc, e, other),
            None => {
                *into = Some(other);
                Ok(())
            }
        },
        None => Ok(()),
    }
}

/// Adds all ends of a part that follows: it gives the normal one.
pub(crate) fn follow<R: Rules>(
    alloc: Global,
    rules: &R,
    ends: &mut Ends<R::Env>,
    more: Ends<R::Env>,
) -> Result<(), AllocError>
    ensures { OnOk result (ends_of R.known ends.new ≡ followed (R.operations rules.now) (ends_of R.known ends.old) (ends_of R.known more)) }
{
    ends.normal = more.normal;
    unite(alloc, rules, &mut ends.breaks, more.breaks)?;
    unite(alloc, rules, &mut ends.continues, more.continues)
}

/// Adds all ends of another part of two.
pub(crate) fn join<R: Rules>(
    alloc: Global,
    rules: &R,
    ends: &mut Ends<R::Env>,
    more: Ends<R::Env>,
) -> Result<(), AllocError>
    ensures { OnOk result (ends_of R.known ends.new ≡ beside (R.operations rules.now) (ends_of R.known ends.old) (ends_of R.known more)) }
{
    unite(alloc, rules, &mut ends.normal, more.normal)?;
    unite(alloc, rules, &mut ends.breaks, more.breaks)?;
    unite(alloc, rules, &mut ends.continues, more.continues)
}

/// The variables that statements declare go out of scope, where a state comes.
fn end_scope<R: Rules>(rules: &R, e: &mut Option<R::Env>, items: &[Stmt])
    ensures { option_map R.known e.new ≡ option_map ((R.operations rules.now).left_scope (plain_statements items.now)) (option_map R.known e.old) }
{
    if let Some(e) = e {
        rules.leave_scope(items, e);
    }
}

/// Ends the block that these statements are.
pub(crate) fn end_block<R: Rules>(rules: &R, ends: &mut Ends<R::Env>, items: &[Stmt])
    ensures { ends_of R.known ends.new ≡ as_block (R.operations rules.now) (plain_statements items.now) (ends_of R.known ends.old) }
{
    end_scope(rules, &mut ends.normal, items);
    end_scope(rules, &mut ends.breaks, items);
    end_scope(rules, &mut ends.continues, items);
}

/// What is known where a loop goes on after its body: after its end and after its `continue`s.
pub(crate) fn goes_on<R: Rules>(
    alloc: Global,
    rules: &R,
    ends: Ends<R::Env>,
) -> Result<Option<R::Env>, AllocError>
    ensures { IfOk result (λ r. option_map R.known r ≡ hull_reached (R.operations rules.now) (ends_of R.known ends).normal (ends_of R.known ends).continues) }
{
    let mut on = ends.normal;
    unite(alloc, rules, &mut on, ends.continues)?;
    Ok(on)
}
