//! What is found of a value.

ghost use Rattle.std.specs.Prelude.{◌≡◌};
ghost use Rattle.std.specs.Option.{option_map};
ghost use Rattle.p10_absx.specs.Abstract.{abstract_of};
ghost use Rattle.p10_absx.specs.Environments.{Environment};
ghost use Rattle.p10_absx.specs.Assessing.{tested_abstract, value_found, as_side};
ghost use Rattle.p10_absx.specs.private.Found.{side_of, assessed_of};

use crate::abs::Abs;
use crate::changes::{Change, Side};
use crate::operators::only_range;
use p10_range::Range;

/// What is found of a value.
#[derive(Drop)]
pub enum Found {
    /// A plain value: whether it is an integer, and what it is as a side of a comparison.
    Scalar(bool, Side),
    /// A test: what is changed where it is true and where it is false, `None` where no state is left.
    Test(Option<Vec<Change>>, Option<Vec<Change>>),
}

/// The value of a test by whether itself and its contrary leave a state.
fn tested(itself: bool, contrary: bool) -> Option<Abs>
    ensures { option_map abstract_of result ≡ tested_abstract itself contrary }
{
    match (itself, contrary) {
        (true, true) => Some(only_range(Range { lo: 0, hi: 1 })),
        (true, false) => Some(only_range(Range { lo: 1, hi: 1 })),
        (false, true) => Some(only_range(Range { lo: 0, hi: 0 })),
        (false, false) => None,
    }
}

impl Found {
    /// The value that was found.
    pub(crate) fn value(&self) -> Option<Abs>
        ensures { (env : Environment) → option_map abstract_of result ≡ value_found (assessed_of env self.now) }
    {
        match self {
            Found::Scalar(_, side) => side.value,
            Found::Test(first, second) => tested(first.is_some(), second.is_some()),
        }
    }

    /// What was found, as a side of a comparison.
    pub(crate) fn side(&self) -> Side
        ensures { (env : Environment) → side_of result ≡ as_side (assessed_of env self.now) }
    {
        match self {
            Found::Scalar(_, side) => *side,
            Found::Test(first, second) => Side {
                variable: None,
                value: tested(first.is_some(), second.is_some()),
            },
        }
    }
}
