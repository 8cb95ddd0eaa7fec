//! What an expression stands in.

use crate::scope::Scope;

/// A scope, and whether an expression that stands there is evaluated: an operand of `sizeof` isn't (C99 6.5.3.4p2).
#[derive(Clone, Copy)]
pub struct Situation<'a, 's> {
    pub scope: &'a Scope<'s>,
    pub evaluated: bool,
}

impl<'a, 's> Situation<'a, 's> {
    ghost use Rattle.std.specs.Prelude.{◌≡◌};
    ghost use Rattle.p10_elabx.specs.Scopes.{unevaluated};
    ghost use Rattle.p10_elabx.specs.PlainScopes.{scope_in};

    /// The same scope, where expressions aren't evaluated.
    pub fn unevaluated(self) -> Situation<'a, 's>
        ensures { scope_in result ≡ unevaluated (scope_in self.entry) }
    {
        Situation {
            scope: self.scope,
            evaluated: false,
        }
    }
}
