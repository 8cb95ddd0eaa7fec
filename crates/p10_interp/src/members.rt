//! Members of structures (C99 6.5.2.3).

ghost use Rattle.std.specs.Prelude.{◌≡◌, List, IfSome, length, map, take, flat_map};
ghost use Rattle.p10_core.specs.Types.{PlainMember, plain_type, plain_member, bare};
ghost use Rattle.p10_core.specs.Typed.{PlainProgram};
ghost use Rattle.p10_core.specs.Sizes.{scalars_of};
ghost use Rattle.p10_core.specs.Views.{plain_program, plain_types};
ghost use Rattle.p10_core.specs.WholePrograms.{AreWholeStructures};
ghost use Rattle.p10_meaning.specs.Values.{scalars_before};
ghost use Rattle.p10_interp.specs.private.Tasks.{Open, member_at};
ghost use Rattle.p10_interp.specs.private.Operations.{done_by};
ghost use Rattle.p10_interp.specs.private.Views.{Answers, left_with};
ghost use Rattle.p10_interp.specs.private.Machines.{Around, state_of};

use crate::operations::pointer_to;
use crate::outside::Outside;
use crate::pointing::inner;
use crate::tasks::Operands;
use crate::widths::{representative, width_of};
use crate::work::{Halt, Operand, Target};
use p10_base::Span;
use p10_core::{CType, Member, Program, TypeForm, Types};

/// A member of a structure: U5, U7 (C99 6.5.2.3).
pub fn member(
    p: &Program<'_>,
    span: Span,
    part: (&CType, u32, &CType),
    operands: &mut Operands,
    outside: &Outside,
) -> Result<(), Halt>
    requires structures { AreWholeStructures (plain_types p.now.types) }
    ensures { (io : Around) (calls : List Open) → Answers (done_by (plain_program p.now) (member_at span (plain_type part.entry.0.now) part.entry.1 (plain_type part.entry.2.now)) operands.old calls (state_of outside.now io)) result (left_with operands.new calls) (state_of outside.now io) }
{
    let (whole, number, t) = part;
    let Some(target) = operands.pop_target() else {
        return Err(Halt::Spent);
    };
    let Some(before) = scalars_before(&p.types, whole, number) else {
        return Err(Halt::Memory);
    };
    let Some(scalars) = width_of(&p.types, t) else {
        return Err(Halt::Memory);
    };
    let there = inner(&outside.store, pointer_to(target), before, scalars, 1, span)?;
    operands.push(Operand::Located(Target::Element(there)))
}

/// How many scalars of a structure stand before a member (C99 6.7.2.1p13); none where their number exceeds that of all addresses.
pub fn scalars_before(types: &Types<'_>, t: &CType, number: u32) -> Option<u64>
    requires structures { AreWholeStructures (plain_types types.now) }
    ensures { (p : PlainProgram) → p.structures ≡ plain_types types.now → IfSome result (λ n. n ≡ scalars_before p (bare p.structures (plain_type t.now)) number) }
{
    match &t.form {
        TypeForm::Struct(structure) => {
            match types.body(representative(types, *structure)) {
                Some(body) => scalars_of_first(types, body.members.as_slice(), number),
                None => Some(0),
            }
        }
        _ => Some(0),
    }
}

/// How many scalars the first members have, as many as asked; none where their number exceeds that of all addresses.
fn scalars_of_first(types: &Types<'_>, members: &[Member<'_>], number: u32) -> Option<u64>
    requires structures { AreWholeStructures (plain_types types.now) }
    ensures { IfSome result (λ n. n ≡ length (flat_map (λ (x : PlainMember). scalars_of (plain_types types.now) (bare (plain_types types.now) x.type)) (take number (map plain_member members.now)))) }
{
    let mut before: u64 = 0;
    for (place, member) in members.iter().enumerate() {
        if place as u64 >= number as u64 {
            return Some(before);
        }
        let Some(scalars) = width_of(types, &member.ty) else {
            return None;
        };
        let Some(more) = before.checked_add(scalars) else {
            return None;
        };
        before = more;
    }
    Some(before)
}
