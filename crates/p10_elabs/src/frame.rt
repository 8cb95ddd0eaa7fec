//! What doesn't change in a function.

use crate::taken_set::TakenSet;
use p10_core::CType;
use p10_heads::Heads;
use std::alloc::Global;

/// What doesn't change in a function.
#[derive(Drop)]
pub struct Frame<'h, 's> {
    pub alloc: Global,
    /// What the roots define.
    pub heads: &'h Heads<'s>,
    /// The variables whose addresses are taken.
    pub taken: TakenSet,
    /// The number of the function.
    pub number: u32,
    /// The type of its result.
    pub result: CType,
}

impl<'h, 's> Frame<'h, 's> {
    ghost use Rattle.std.specs.Prelude.{◌≡◌};
    ghost use Rattle.p10_core.specs.Types.{plain_type};
    ghost use Rattle.p10_elabs.specs.LocalDeclarations.{is_frame_variable};
    ghost use Rattle.p10_elabs.specs.FrameViews.{plain_frame};

    /// Whether the variable with a number is a frame variable, where its type is given: a scalar whose address isn't taken.
    pub fn is_frame_variable(&self, number: u32, ty: &CType) -> bool
        ensures { result ≡ is_frame_variable (plain_frame self.now) number (plain_type ty.now) }
    {
        ty.is_scalar() && !self.taken.has(number)
    }
}
