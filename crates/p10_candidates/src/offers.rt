//! What the guard of a loop offers where it compares variables.

ghost use Rattle.std.specs.Prelude.{◌≡◌, ◌++◌, ◌&&◌, map, flat_map, IfOk, OnOk};
ghost use Rattle.std.specs.Option.{option_map};
ghost use Rattle.p10_core.specs.Views.{plain_value};
ghost use Rattle.p10_candidates.specs.Candidates.{conjuncts};
ghost use Rattle.p10_candidates.specs.Approaches.{approach_of, approach_between, variable_in, if_assigned, conjunct_approaches, approaches};
ghost use Rattle.p10_candidates.specs.Offering.{entry_by, approach_by};

use crate::changing::any_trial;
use crate::entry::LoopEntry;
use p10_absx::Env;
use p10_core::{LogicOp, Value, ValueForm};
use p10_int::BinOp;
use p10_pass::is_marked;
use std::alloc::{AllocError, Global};

/// Two variables, of which the first is less than the second, or at most that.
#[derive(Clone, Copy, Debug, PartialEq, Eq)]
pub struct Approach {
    pub below: u32,
    pub above: u32,
    pub may_equal: bool,
}

/// What the guard of a loop offers, in text order. It fails only out of memory.
pub fn approaches(alloc: Global, l: &LoopEntry<'_, '_>) -> Result<Vec<Approach>, AllocError>
    ensures { IfOk result (λ found. map approach_by found.items ≡ approaches (entry_by l.now)) }
{
    let mut found = Vec::new(alloc);
    let mut head = any_trial(alloc, l)?;
    if let Some(guard) = l.guard {
        put_conjuncts(alloc, l, guard, &mut head, &mut found)?;
    }
    Ok(found)
}

/// What a comparison of two variables offers.
fn approach_of(op: BinOp, x: u32, y: u32) -> Option<Approach>
    ensures { option_map approach_by result ≡ approach_of op x y }
{
    match op {
        BinOp::Lt => Some(Approach {
            below: x,
            above: y,
            may_equal: false,
        }),
        BinOp::Le => Some(Approach {
            below: x,
            above: y,
            may_equal: true,
        }),
        BinOp::Gt => Some(Approach {
            below: y,
            above: x,
            may_equal: false,
        }),
        BinOp::Ge => Some(Approach {
            below: y,
            above: x,
            may_equal: true,
        }),
        BinOp::Eq | BinOp::Ne => None,
        BinOp::Add | BinOp::Sub | BinOp::Mul | BinOp::Div | BinOp::Rem => None,
        BinOp::Shl | BinOp::Shr | BinOp::And | BinOp::Or | BinOp::Xor => None,
    }
}

/// The same where its operands may be variables.
fn approach_between(op: BinOp, x: Option<u32>, y: Option<u32>) -> Option<Approach>
    ensures { option_map approach_by result ≡ approach_between op x y }
{
    match x {
        Some(x) => match y {
            Some(y) => approach_of(op, x, y),
            None => None,
        },
        None => None,
    }
}

/// Whether the loop assigns both variables.
fn assigns_both(l: &LoopEntry<'_, '_>, a: Approach) -> bool
    ensures { result ≡ ((entry_by l.now).assigned a.below && (entry_by l.now).assigned a.above) }
{
    is_marked(l.assigned, a.below as usize) && is_marked(l.assigned, a.above as usize)
}

/// Puts an approach after others, if there is one and the loop assigns both variables.
fn put_assigned(
    l: &LoopEntry<'_, '_>,
    a: Option<Approach>,
    found: &mut Vec<Approach>,
) -> Result<(), AllocError>
    ensures { OnOk result (map approach_by found.new.items ≡ map approach_by found.old.items ++ if_assigned (entry_by l.now) (option_map approach_by a)) }
{
    match a {
        Some(a) => {
            if assigns_both(l, a) {
                found.push(a)?;
            }
            Ok(())
        }
        None => Ok(()),
    }
}

/// What a comparison of two values offers, by what is known at the head.
fn compared(
    alloc: Global,
    op: BinOp,
    a: &Value,
    b: &Value,
    head: &mut Env,
) -> Result<Option<Approach>, AllocError>
    ensures same { OnOk result (head.new ≡ head.old) }
    ensures is { IfOk result (λ r. option_map approach_by r ≡ approach_between op (variable_in head.old.values (plain_value a.now)) (variable_in head.old.values (plain_value b.now))) }
{
    let x = head.variable_of(alloc, None, a)?;
    let y = head.variable_of(alloc, None, b)?;
    Ok(approach_between(op, x, y))
}

/// Puts what the conjuncts of a value offer.
fn put_conjuncts(
    alloc: Global,
    l: &LoopEntry<'_, '_>,
    v: &Value,
    head: &mut Env,
    found: &mut Vec<Approach>,
) -> Result<(), AllocError>
    ensures same { OnOk result (head.new ≡ head.old) }
    ensures put { OnOk result (map approach_by found.new.items ≡ map approach_by found.old.items ++ flat_map (conjunct_approaches (entry_by l.now) head.old.values) (conjuncts (plain_value v.now))) }
{
    match &v.form {
        ValueForm::Logic(op, a, b) => match op {
            LogicOp::And => {
                put_conjuncts(alloc, l, a, head, found)?;
                put_conjuncts(alloc, l, b, head, found)
            }
            LogicOp::Or => Ok(()),
        },
        ValueForm::Binary(op, a, b) => {
            let offered = compared(alloc, *op, a, b, head)?;
            put_assigned(l, offered, found)
        }
        ValueForm::Const(_)
        | ValueForm::Read(_)
        | ValueForm::Sense(_)
        | ValueForm::Addr(_)
        | ValueForm::Decay(_)
        | ValueForm::Convert(_)
        | ValueForm::Cast(_)
        | ValueForm::Unary(_, _)
        | ValueForm::Cond(_, _, _)
        | ValueForm::Call(_, _, _)
        | ValueForm::Builtin(_, _, _) => Ok(()),
    }
}
