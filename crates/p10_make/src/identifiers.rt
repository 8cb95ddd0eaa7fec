//! Names that stand nowhere yet.

ghost use Rattle.std.specs.Prelude.{◌≡◌};
ghost use Rattle.p10_syn.specs.Built.{named};

use p10_syn::{Identifier, nowhere};

/// A name that stands nowhere.
pub(crate) fn identifier<'s>(text: &'s [u8]) -> Identifier<'s>
    ensures { result.text.now ≡ text.now }
{
    Identifier {
        at: nowhere(),
        text,
    }
}
