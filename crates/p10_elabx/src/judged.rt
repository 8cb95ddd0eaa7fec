//! What is found in trees, with what counts for the order of evaluation (C99 6.5p3).

ghost use Rattle.std.specs.Prelude.{◌≡◌, ◌&&◌, ◌||◌, [], ◌∷◌, if◌then◌else◌};
ghost use Rattle.p10_elabx.specs.First.{only_first, problems, joined, also, if_evaluated, refused_where, lift};
ghost use Rattle.p10_elabx.specs.Built.{judged_operand, judged_value, judged_target, judged_form, ruled_operand, ruled_target, ruled_form, ruled_shape};

use crate::operand::{Operand, PlaceKind};
use crate::parts::refused;
use crate::problem::{Problem, least};
use crate::shape::Shape;
use p10_base::{At, SubsetCode};
use p10_core::{Place, StmtForm, Value};

/// What is found in a tree: something, or the first row of the subset that holds in it, or neither where a part names what was
/// refused before. The flags also count where the tree is refused.
#[derive(Drop)]
pub struct Judged<A> {
    pub found: Result<A, Option<Problem>>,
    /// Whether the tree has a call or a read of a sensor.
    pub acts: bool,
    /// Whether the tree reads an object.
    pub reads: bool,
}

/// What is found in arguments, from the left.
#[derive(Drop)]
pub struct Listed {
    pub found: Result<Vec<Value>, Option<Problem>>,
    pub acts: bool,
    pub reads: bool,
    /// Whether the order of two of them isn't specified, although one has a call.
    pub unordered: bool,
}

/// The first of the rows that hold in two parts.
pub fn joined(a: Option<Problem>, b: Option<Problem>) -> Option<Problem>
    ensures { problems result ≡ joined only_first (problems a) (problems b) }
{
    match (a, b) {
        (Some(r), Some(q)) => Some(least(r, q)),
        (Some(r), None) => Some(r),
        (None, q) => q,
    }
}

/// The rows that hold in a part, where one on its form may hold too.
pub fn refusal(holds: bool, own: Problem, r: Option<Problem>) -> Option<Problem>
    ensures { problems result ≡ (if holds then joined only_first (problems r) (own ∷ []) else problems r) }
{
    if holds { joined(r, Some(own)) } else { r }
}

/// Whether one of two operands has a call or a read of a sensor, and the other a call or a read.
pub fn unordered<A, B>(a: &Judged<A>, b: &Judged<B>) -> bool
    ensures { result ≡ ((a.now.acts && (b.now.acts || b.now.reads)) || ((a.now.acts || a.now.reads) && b.now.acts)) }
{
    (a.acts && (b.acts || b.reads)) || ((a.acts || a.reads) && b.acts)
}

/// What is found in a value, with what counts for the order of evaluation if it is evaluated.
pub fn value_if_evaluated(evaluated: bool, j: Judged<Value>) -> Judged<Value>
    ensures { judged_value result ≡ if_evaluated evaluated (judged_value j) }
{
    let Judged { found, acts, reads } = j;
    let acts = evaluated && acts;
    let reads = evaluated && reads;
    Judged { found, acts, reads }
}

/// What is found in a target, with what counts for the order of evaluation if it is evaluated.
pub fn target_if_evaluated(
    evaluated: bool,
    j: Judged<(PlaceKind, Place)>,
) -> Judged<(PlaceKind, Place)>
    ensures { judged_target result ≡ if_evaluated evaluated (judged_target j) }
{
    let Judged { found, acts, reads } = j;
    let acts = evaluated && acts;
    let reads = evaluated && reads;
    Judged { found, acts, reads }
}

/// A row on the form of an operand.
pub fn also_operand(holds: bool, code: SubsetCode, at: At, j: Judged<Operand>) -> Judged<Operand>
    ensures { judged_operand result ≡ also only_first holds code at (judged_operand j) }
{
    let Judged { found, acts, reads } = j;
    Judged {
        found: operand_refused(holds, Problem { code, at }, found),
        acts,
        reads,
    }
}

/// An operand, where a row on its form may hold.
fn operand_refused(
    holds: bool,
    own: Problem,
    found: Result<Operand, Option<Problem>>,
) -> Result<Operand, Option<Problem>>
    ensures { lift (ruled_operand result) ≡ refused_where only_first holds own.code own.at (lift (ruled_operand found)) }
{
    refused(holds, own, found)
}

/// A row on the form of a target.
pub fn also_target(
    holds: bool,
    code: SubsetCode,
    at: At,
    j: Judged<(PlaceKind, Place)>,
) -> Judged<(PlaceKind, Place)>
    ensures { judged_target result ≡ also only_first holds code at (judged_target j) }
{
    let Judged { found, acts, reads } = j;
    Judged {
        found: target_refused(holds, Problem { code, at }, found),
        acts,
        reads,
    }
}

/// A target, where a row on its form may hold.
fn target_refused(
    holds: bool,
    own: Problem,
    found: Result<(PlaceKind, Place), Option<Problem>>,
) -> Result<(PlaceKind, Place), Option<Problem>>
    ensures { lift (ruled_target result) ≡ refused_where only_first holds own.code own.at (lift (ruled_target found)) }
{
    refused(holds, own, found)
}

/// A row on the form of an assignment.
pub fn also_form(holds: bool, code: SubsetCode, at: At, j: Judged<StmtForm>) -> Judged<StmtForm>
    ensures { judged_form result ≡ also only_first holds code at (judged_form j) }
{
    let Judged { found, acts, reads } = j;
    Judged {
        found: form_refused(holds, Problem { code, at }, found),
        acts,
        reads,
    }
}

/// An assignment, where a row on its form may hold.
fn form_refused(
    holds: bool,
    own: Problem,
    found: Result<StmtForm, Option<Problem>>,
) -> Result<StmtForm, Option<Problem>>
    ensures { lift (ruled_form result) ≡ refused_where only_first holds own.code own.at (lift (ruled_form found)) }
{
    refused(holds, own, found)
}

/// A type, where a row on its form may hold.
pub fn shape_refused(
    holds: bool,
    own: Problem,
    found: Result<Shape, Option<Problem>>,
) -> Result<Shape, Option<Problem>>
    ensures { lift (ruled_shape result) ≡ refused_where only_first holds own.code own.at (lift (ruled_shape found)) }
{
    refused(holds, own, found)
}
