//! The pragmas of p10 in the body of `main`: where each may stand.

ghost use Rattle.std.specs.Prelude.{◌≡◌, ◌||◌, true, false, option_map};
ghost use Rattle.p10_core.specs.Constants.{IsSmall};
ghost use Rattle.p10_core.specs.Views.{plain_value};
ghost use Rattle.p10_core.specs.WholePrograms.{gives_other_than_zero, is_true_test};
ghost use Rattle.p10_elabx.specs.First.{only_first};
ghost use Rattle.p10_elabd.specs.Views.{plain_standing};
ghost use Rattle.p10_elabs.specs.Marks.{mark_of, test_kind, no_more, is_last_return, may_precede, marks_noted};
ghost use Rattle.p10_elabs.specs.private.Marking.{after_init, after_task, is_misplaced, mark_noted};

use crate::kind::Kind;
use p10_base::{At, SubsetCode};
use p10_core::{MarkKind, Value, fold, inconstant_part};
use p10_elabd::Standing;

/// Which pragma a text is.
pub(crate) fn mark_of(text: &[u8]) -> MarkKind
    ensures { result ≡ mark_of text.now }
{
    if text == b"task_loop".as_slice() {
        MarkKind::TaskLoop
    } else {
        MarkKind::InitDone
    }
}

/// Whether a constant gives a number other than 0.
fn gives_other_than_zero(found: Result<i128, At>) -> bool
    ensures { result ≡ gives_other_than_zero found }
{
    match found {
        Ok(number) => number != 0,
        Err(_) => false,
    }
}

/// Whether a condition is an integer constant expression other than 0.
fn is_true_test(v: &Value) -> bool
    ensures { result ≡ is_true_test (plain_value v.now) }
{
    v.ty.is_integer() && (inconstant_part(v).is_none() && gives_other_than_zero(fold(v)))
}

/// What a `while` is by its condition, which may be refused.
pub(crate) fn test_kind(test: &Option<Value>) -> Kind
    ensures { result ≡ test_kind (option_map plain_value test.now) }
{
    match test {
        Some(v) => {
            if is_true_test(v) {
                Kind::Task
            } else {
                Kind::Other
            }
        }
        None => Kind::Unknown,
    }
}

/// Whether there are no items.
fn no_more(kinds: &[Kind]) -> bool
    ensures { result ≡ no_more kinds.now }
{
    match kinds {
        [] => true,
        [_, ..] => false,
    }
}

/// Whether items are at most one `return`.
fn is_last_return(kinds: &[Kind]) -> bool
    ensures { result ≡ is_last_return kinds.now }
{
    match kinds {
        [] => true,
        [Kind::Return] => true,
        _ => false,
    }
}

/// Whether the mark of the task loop may stand before these items.
fn may_precede(kinds: &[Kind]) -> bool
    ensures { result ≡ may_precede kinds.now }
{
    match kinds {
        [Kind::Task, rest @ ..] => is_last_return(rest),
        [Kind::Unknown, rest @ ..] => is_last_return(rest),
        _ => false,
    }
}

/// Whether `init_done` stood before, with an item more.
fn after_init(init: bool, kind: Kind) -> bool
    ensures { result ≡ after_init init kind }
{
    match kind {
        Kind::Mark(MarkKind::InitDone, _) => true,
        _ => init,
    }
}

/// Whether `task_loop` stood before, with an item more.
fn after_task(task: bool, kind: Kind) -> bool
    ensures { result ≡ after_task task kind }
{
    match kind {
        Kind::Mark(MarkKind::TaskLoop, _) => true,
        _ => task,
    }
}

/// Whether a pragma may not stand before the items after it, where it is known whether it is the first item and which pragmas stood before.
fn is_misplaced(mark: MarkKind, first: bool, init: bool, task: bool, rest: &[Kind]) -> bool
    ensures { result ≡ is_misplaced mark first init task rest.now }
{
    match mark {
        MarkKind::InitDone => first || (no_more(rest) || (init || task)),
        MarkKind::TaskLoop => task || !may_precede(rest),
    }
}

/// Notes an item that is a pragma and may not stand where it does.
fn note_mark(
    kind: Kind,
    first: bool,
    before: (bool, bool),
    rest: &[Kind],
    standing: &mut Standing<'_>,
)
    ensures { plain_standing standing.new ≡ mark_noted only_first first before.0 before.1 kind rest.now (plain_standing standing.old) }
{
    match kind {
        Kind::Mark(mark, at) => {
            let (init, task) = before;
            let misplaced = is_misplaced(mark, first, init, task, rest);
            standing.refuse_where(misplaced, SubsetCode::MisplacedPragma, at);
        }
        _ => {}
    }
}

/// Notes the pragmas among the items of the body of `main` that may not stand where they do: each stands once at most, `init_done`
/// between two items and before the task loop, `task_loop` directly before a loop with a constant condition, after which at most one
/// `return` stands.
pub fn marks_noted(kinds: &[Kind], standing: &mut Standing<'_>)
    ensures { plain_standing standing.new ≡ marks_noted only_first true false false kinds.now (plain_standing standing.old) }
{
    let mut first = true;
    let mut init = false;
    let mut task = false;
    let mut rest = kinds;
    while let [kind, others @ ..] = rest {
        note_mark(*kind, first, (init, task), others, standing);
        first = false;
        init = after_init(init, *kind);
        task = after_task(task, *kind);
        rest = others;
    }
}
