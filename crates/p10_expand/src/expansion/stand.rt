//! Where a line stands among the conditionals of its file.

ghost use Rattle.std.specs.Prelude.{◌≡◌, ◌+◌, ◌≤◌, ◌<◌, ◌^◌};
ghost use Rattle.p10_expand.specs.private.Skipping.{is_obeyed, stand_after};
ghost use Rattle.p10_expand.specs.private.Steps.{inner_of};

use p10_direct::Mark;

/// Where a line stands (C99 6.10.1p6).
#[derive(Clone, Copy)]
pub enum Stand {
    /// In no skipped group.
    Obeyed,
    /// In a skipped group, or at the line where it ends. `chosen` says whether a group of that conditional was chosen
    /// before, and `inner` how many conditionals have begun in the group and are open.
    Skipped { chosen: bool, inner: usize },
}

/// Whether a line with this part in a conditional is obeyed where it stands there.
pub fn is_followed(stand: Stand, part: Mark) -> bool
    ensures { result ≡ is_obeyed stand part }
{
    match stand {
        Stand::Obeyed => !matches!(part, Mark::Elif),
        Stand::Skipped { chosen, inner } => {
            inner == 0
                && match part {
                    Mark::Elif => !chosen,
                    Mark::Else | Mark::Closes => true,
                    Mark::Opens | Mark::Plain => false,
                }
        }
    }
}

/// Where the line after one with this part stands; `holds` says whether its condition holds.
pub fn after(stand: Stand, part: Mark, holds: bool) -> Stand
    requires { inner_of stand + 1 < 2 ^ 64 }
    ensures value { result ≡ stand_after stand part holds }
    ensures few { inner_of result ≤ inner_of stand + 1 }
{
    match stand {
        Stand::Obeyed => after_obeyed(part, holds),
        Stand::Skipped { chosen, inner } => after_skipped(chosen, inner, part, holds),
    }
}

/// Where the line after one in no skipped group stands.
fn after_obeyed(part: Mark, holds: bool) -> Stand
    ensures value { result ≡ stand_after Stand.Obeyed part holds }
    ensures few { inner_of result ≡ 0 }
{
    match part {
        Mark::Opens => {
            if holds {
                Stand::Obeyed
            } else {
                Stand::Skipped {
                    chosen: false,
                    inner: 0,
                }
            }
        }
        Mark::Elif | Mark::Else => Stand::Skipped {
            chosen: true,
            inner: 0,
        },
        Mark::Closes | Mark::Plain => Stand::Obeyed,
    }
}

/// Where the line after one in a skipped group stands, or after the one that ends it.
fn after_skipped(chosen: bool, inner: usize, part: Mark, holds: bool) -> Stand
    requires { inner + 1 < 2 ^ 64 }
    ensures value { result ≡ stand_after (Stand.Skipped chosen inner) part holds }
    ensures few { inner_of result ≤ inner + 1 }
{
    match part {
        Mark::Opens => Stand::Skipped {
            chosen,
            inner: inner + 1,
        },
        Mark::Elif => {
            if inner == 0 && !chosen && holds {
                Stand::Obeyed
            } else {
                Stand::Skipped { chosen, inner }
            }
        }
        Mark::Else => {
            if inner == 0 && !chosen {
                Stand::Obeyed
            } else {
                Stand::Skipped { chosen, inner }
            }
        }
        Mark::Closes => {
            if inner == 0 {
                Stand::Obeyed
            } else {
                Stand::Skipped {
                    chosen,
                    inner: inner - 1,
                }
            }
        }
        Mark::Plain => Stand::Skipped { chosen, inner },
    }
}
