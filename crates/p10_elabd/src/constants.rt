//! Constants of enumerations, one at a time (C99 6.7.2.2).

ghost use Rattle.std.specs.Prelude.{◌≡◌, option_map, IfSome, true};
ghost use Rattle.p10_int.specs.declared.types.IntType.TheVariants.{Int};
ghost use Rattle.p10_int.specs.Types.{holds};
ghost use Rattle.p10_elabx.specs.First.{only_first};
ghost use Rattle.p10_elabx.specs.Views.{meaning_of};
ghost use Rattle.p10_elabd.specs.Members.{int_value, enumerator_meaning, value_after};
ghost use Rattle.p10_elabd.specs.Views.{plain_standing, told};

use crate::standing::Standing;
use p10_base::{At, SubsetCode};
use p10_elabx::Named;
use p10_int::{IntType, holds};

/// The value of a constant, which is one of `int` (C99 6.7.2.2p2).
pub fn int_value(standing: &mut Standing<'_>, at: At, value: Option<i128>) -> Option<i128>
    ensures int { IfSome result (λ z. holds Int z ≡ true) }
    ensures told { told result standing.new ≡ int_value only_first at value (plain_standing standing.old) }
{
    match value {
        None => None,
        Some(number) => {
            if holds(IntType::Int, number) {
                Some(number)
            } else {
                standing.refuse(SubsetCode::ConstantStops, at);
                None
            }
        }
    }
}

/// What a constant's name stands for.
pub fn enumerator_meaning(value: Option<i128>) -> Named
    ensures { meaning_of result ≡ enumerator_meaning value }
{
    match value {
        None => Named::Unknown,
        Some(number) => Named::Constant(number),
    }
}

/// The value of the constant after one.
pub fn value_after(value: Option<i128>) -> Option<i128>
    requires int { IfSome value (λ z. holds Int z ≡ true) }
    ensures { result ≡ value_after value }
{
    match value {
        None => None,
        Some(number) => Some(number + 1),
    }
}
