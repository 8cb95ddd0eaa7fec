//! What of an operator's operands counts for its bounds.

ghost use Rattle.std.specs.Prelude.{◌≡◌, IfSome, OnOk, IfOk};
ghost use Rattle.p10_core.specs.Types.{plain_type};
ghost use Rattle.p10_core.specs.Views.{plain_value};
ghost use Rattle.p10_diff.specs.Halves.{IsPart};
ghost use Rattle.p10_diff.specs.Knowing.{pair_by};
ghost use Rattle.p10_diff.specs.private.Operands.{operands_of, operands_by};

use crate::ends::Ends;
use crate::halving::{Part, is_exact, named, part_in, value_range};
use crate::known::Pair;
use p10_absx::Env;
use p10_core::{CType, Value};
use p10_range::Range;
use std::alloc::{AllocError, Global};

/// Whether the result is exact; the variable that the first operand is, and the part of a distance that the second one is; and
/// their ranges.
#[derive(Clone, Copy)]
pub struct Operands {
    pub exact: bool,
    pub variable: Option<u32>,
    pub part: Option<Part>,
    pub first: Option<Range>,
    pub second: Option<Range>,
}

/// The bounds of the operands of an operator and a name.
#[derive(Clone, Copy)]
pub(crate) struct Sides {
    pub(crate) left: Ends,
    pub(crate) right: Ends,
}

/// The operands of an operator at a type.
pub(crate) fn find_operands(
    alloc: Global,
    p: &Pair<'_, '_>,
    ranges: &mut Env,
    t: &CType,
    a: &Value,
    b: &Value,
) -> Result<Operands, AllocError>
    ensures same { OnOk result (ranges.new ≡ ranges.old) }
    ensures are { IfOk result (λ o. operands_by o ≡ operands_of (pair_by p.now) ranges.old.values (plain_type t.now) (plain_value a.now) (plain_value b.now)) }
    ensures two { IfOk result (λ o. IfSome o.part IsPart) }
{
    let variable = named(alloc, p, ranges, a)?;
    let part = part_in(alloc, p, ranges, b)?;
    let first = value_range(alloc, ranges, a)?;
    let second = value_range(alloc, ranges, b)?;
    Ok(Operands {
        exact: is_exact(t, a, b),
        variable,
        part,
        first,
        second,
    })
}
