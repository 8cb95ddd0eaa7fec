//! Character constants and strings: where they end (C99 6.4.4.4, 6.4.5).

ghost use Rattle.std.specs.Prelude.{◌≡◌, false};
ghost use Rattle.std.specs.Option.{option_map};
ghost use Rattle.p10_lex.specs.private.Runs.{after_literal};

use crate::splices;

/// What is left after the closing quote of a literal, whose opening quote stands before the text.
#[tactic(auto, unfolding(crate::specs::private::Runs::after_literal))]
pub(crate) fn after_literal(quote: u8, text: &[u8]) -> Option<&[u8]>
    ensures { option_map (λ rest. rest.now) result ≡ after_literal quote 0 false text.now }
{
    let mut rest = text;
    let mut skip = 0;
    let mut escaped = false;
    while let [first, others @ ..] = rest {
        if 0 < skip {
            skip -= 1;
        } else {
            let splice = splices::splice_length(rest);
            if 0 < splice {
                skip = splice - 1;
            } else if *first == b'\n' {
                return None;
            } else if escaped {
                escaped = false;
            } else if *first == quote {
                return Some(others);
            } else {
                escaped = *first == b'\\';
            }
        }
        rest = others;
    }
    None
}
