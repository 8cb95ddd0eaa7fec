//! What may come next in a certificate's text: the states of its reader, and the step from one to the next.

ghost use Rattle.std.specs.Prelude.{◌≡◌, if◌then◌else◌, option_map, Some, None};
ghost use Rattle.p10_cert.specs.Statements.{is_before};
ghost use Rattle.p10_cert.specs.private.Plain.{plain_line};
ghost use Rattle.p10_cert.specs.private.States.{next_of, Func, Section};
ghost use Rattle.p10_cert.specs.private.Steps.{step, step_func, step_total, step_outside, step_loop, seen_first, seen_after, may_stand, tasked_after, is_main};

use crate::claims::Rank;
use crate::line::{LoopStart, Row, SectionStart};
use crate::state::{Next, Seen};

/// What may come after a line, or `None` where no certificate has this line there.
#[tactic(auto, unfolding(crate::specs::private::Steps::step))]
pub(crate) fn step<'c>(next: Next<'c>, line: Row<'c>) -> Option<Next<'c>>
    ensures { option_map next_of result ≡ step (next_of next.entry) (plain_line line.entry) }
{
    match next {
        Next::First => match line {
            Row::First => Some(first(false)),
            Row::Sealed => Some(first(true)),
            _ => None,
        },
        Next::Func { seen } => match line {
            Row::Func(head) => Some(step_func(seen, head.name)),
            Row::Total(_) => step_total(seen),
            Row::Outside(_) => step_outside(seen),
            _ => None,
        },
        Next::Digest { main, seen } => match line {
            Row::Digest(_) => Some(Next::Param { main, seen }),
            _ => None,
        },
        Next::Param { main, seen } => match line {
            Row::Param(_) => Some(next),
            Row::Result(_) => Some(Next::Loop {
                main,
                seen,
                deepest: 0,
                least: NO_VARIABLE,
            }),
            _ => None,
        },
        Next::Loop {
            main,
            seen,
            deepest,
            least,
        } => match line {
            Row::Loop(start) => step_loop(main, seen, deepest, start),
            Row::Var(found) => {
                if least <= u64::from(found.var) {
                    Some(Next::Loop {
                        main,
                        seen,
                        deepest,
                        least: u64::from(found.var) + 1,
                    })
                } else {
                    None
                }
            }
            Row::Func(head) => Some(step_func(seen, head.name)),
            Row::Total(_) => step_total(seen),
            Row::Outside(_) => step_outside(seen),
            _ => None,
        },
        Next::Total => match line {
            Row::Total(_) => Some(Next::Section {
                since: b"",
                left: 0,
            }),
            _ => None,
        },
        Next::Section { since, left } => step_section(since, left, line),
        Next::Last => match line {
            Row::Last => Some(Next::Over),
            _ => None,
        },
        Next::Over => None,
    }
}

/// More than the number of any variable: before the first loop no variable may come.
const NO_VARIABLE: u64 = 4_294_967_296;

/// What may come after the first line of the text.
fn first<'c>(sealed: bool) -> Next<'c>
    ensures { next_of result ≡ Func (seen_first sealed) }
{
    Next::Func {
        seen: Seen {
            sealed,
            tasked: false,
        },
    }
}

/// What may come after the first line of a function: its digest, in version 2, or its parameters.
fn step_func<'c>(seen: Seen, name: &[u8]) -> Next<'c>
    ensures { next_of result ≡ step_func seen name.now }
{
    let main = is_main(name);
    if seen.sealed {
        Next::Digest { main, seen }
    } else {
        Next::Param { main, seen }
    }
}

/// What may come after the bounds, which come before any digest in version 1 alone.
fn step_total<'c>(seen: Seen) -> Option<Next<'c>>
    ensures { option_map next_of result ≡ step_total seen }
{
    if seen.sealed { None } else { Some(Next::Last) }
}

/// What may come after the digest of the words outside bodies, which version 2 has.
fn step_outside<'c>(seen: Seen) -> Option<Next<'c>>
    ensures { option_map next_of result ≡ step_outside seen }
{
    if seen.sealed { Some(Next::Total) } else { None }
}

/// What may come after a line among sections.
#[tactic(auto, unfolding(crate::specs::private::Steps::step))]
fn step_section<'c>(since: &'c [u8], left: u32, line: Row<'c>) -> Option<Next<'c>>
    ensures { option_map next_of result ≡ step (Section since.now left) (plain_line line.entry) }
{
    if left > 0 {
        match line {
            Row::Body(_) => Some(Next::Section {
                since,
                left: left - 1,
            }),
            _ => None,
        }
    } else {
        match line {
            Row::Section(start) => named_after(since, start),
            Row::Last => Some(Next::Over),
            _ => None,
        }
    }
}

/// What may come after the first line of a section, whose name comes after that of the section before.
fn named_after<'c>(since: &[u8], start: SectionStart<'c>) -> Option<Next<'c>>
    ensures { option_map next_of result ≡ (if is_before since.now start.entry.name.now then Some (Section start.entry.name.now start.entry.count) else None) }
{
    if since.cmp(start.name).is_lt() {
        Some(Next::Section {
            since: start.name,
            left: start.count,
        })
    } else {
        None
    }
}

/// What may come after the first line of a loop.
fn step_loop<'c>(main: bool, seen: Seen, deepest: u64, start: LoopStart) -> Option<Next<'c>>
    ensures { option_map next_of result ≡ step_loop main seen deepest start.depth start.rank }
{
    if u64::from(start.depth) <= deepest && may_stand(main, seen.tasked, start.rank) {
        Some(Next::Loop {
            main,
            seen: seen_after(seen, start.rank),
            deepest: u64::from(start.depth) + 1,
            least: 0,
        })
    } else {
        None
    }
}

/// Whether a loop may stand in a function: the task in `main` alone, and once.
fn may_stand(main: bool, tasked: bool, rank: Rank) -> bool
    ensures { result ≡ may_stand main tasked rank }
{
    match rank {
        Rank::Task => main && !tasked,
        _ => true,
    }
}

/// What was seen, after a loop of this rank.
fn seen_after(seen: Seen, rank: Rank) -> Seen
    ensures { result ≡ seen_after seen rank }
{
    Seen {
        tasked: tasked_after(seen.tasked, rank),
        ..seen
    }
}

/// Whether there was a task, after a loop of this rank.
fn tasked_after(tasked: bool, rank: Rank) -> bool
    ensures { result ≡ tasked_after tasked rank }
{
    match rank {
        Rank::Task => true,
        _ => tasked,
    }
}

/// Whether a function is `main`.
fn is_main(name: &[u8]) -> bool
    ensures { result ≡ is_main name.now }
{
    name == b"main".as_slice()
}
