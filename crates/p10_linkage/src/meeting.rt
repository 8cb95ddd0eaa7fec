//! Where two types that have to be one meet in structures (C99 6.2.7).

ghost use Rattle.std.specs.Prelude.{◌≡◌};
ghost use Rattle.p10_core.specs.Types.{plain_type};
ghost use Rattle.p10_linkage.specs.private.Meetings.{meeting_of};

use p10_core::{CType, TypeForm};

/// How two types meet that have to be one.
#[derive(Clone, Copy, Debug)]
pub enum Meeting {
    /// They can't be one.
    Never,
    /// They are one.
    Always,
    /// They are one where two structures are, by their numbers.
    Where(u32, u32),
}

/// How two types meet: each is a row of pointers and arrays to one innermost part.
pub fn meeting_of(t: &CType, u: &CType) -> Meeting
    ensures { result ≡ meeting_of (plain_type t.now) (plain_type u.now) }
{
    match (&t.form, &u.form) {
        (TypeForm::Void, TypeForm::Void) => always_where(t.is_const == u.is_const),
        (TypeForm::Int(kind), TypeForm::Int(other)) => {
            always_where(t.is_const == u.is_const && kind == other)
        }
        (TypeForm::Pointer(target), TypeForm::Pointer(other)) => {
            unless_never(t.is_const == u.is_const, meeting_of(target, other))
        }
        (TypeForm::Array(element, length), TypeForm::Array(other, count)) => {
            unless_never(length == count, meeting_of(element, other))
        }
        (TypeForm::Struct(m), TypeForm::Struct(n)) => {
            unless_never(t.is_const == u.is_const, Meeting::Where(*m, *n))
        }
        _ => Meeting::Never,
    }
}

ghost use Rattle.std.specs.Prelude.{if◌then◌else◌};
ghost use Rattle.p10_linkage.specs.declared.meeting.Meeting.TheVariants.{Never, Always};

/// Types that are one under a condition.
fn always_where(holds: bool) -> Meeting
    ensures { result ≡ (if holds then Always else Never) }
{
    if holds {
        Meeting::Always
    } else {
        Meeting::Never
    }
}

/// How parts meet, under a condition.
fn unless_never(holds: bool, parts: Meeting) -> Meeting
    ensures { result ≡ (if holds then parts else Never) }
{
    if holds { parts } else { Meeting::Never }
}
