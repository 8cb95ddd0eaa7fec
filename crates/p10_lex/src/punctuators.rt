//! Punctuators (C99 6.4.6).

ghost use Rattle.std.specs.Prelude.{◌≡◌, ◌≤◌, length, [], ◌∷◌};
ghost use Rattle.p10_lex.specs.Lexemes.{is_punctuator};
ghost use Rattle.p10_lex.specs.private.Runs.{is_double, is_triple, punctuator_length};

/// The punctuators of one byte.
#[inline]
#[tactic(auto, unfolding(crate::specs::Lexemes::is_punctuator, crate::specs::Lexemes::single_punctuators))]
fn is_single(a: u8) -> bool
    ensures { result ≡ is_punctuator (a ∷ []) }
{
    b"[](){}.&*+-~!/%<>^|?:;=,#".as_slice().contains(&a)
}

/// The punctuators of two bytes: a doubled byte, an operator with `=`, or `->`.
#[inline]
#[tactic(auto, unfolding(crate::specs::private::Runs::is_double))]
fn is_double(a: u8, b: u8) -> bool
    ensures { result ≡ is_double a b }
{
    (a == b && b"+-<>=&|#".as_slice().contains(&a))
        || ((b == b'=' && b"<>!*/%+-&^|".as_slice().contains(&a)) || (a == b'-' && b == b'>'))
}

/// The punctuators of three bytes.
#[inline]
#[tactic(auto, unfolding(crate::specs::private::Runs::is_triple))]
fn is_triple(a: u8, b: u8, c: u8) -> bool
    ensures { result ≡ is_triple a b c }
{
    (a == b'<' && (b == b'<' && c == b'='))
        || ((a == b'>' && (b == b'>' && c == b'=')) || (a == b'.' && (b == b'.' && c == b'.')))
}

/// The length of the longest punctuator with which a text begins, or 0.
#[tactic(auto, unfolding(crate::specs::private::Runs::punctuator_length))]
pub(crate) fn punctuator_length(text: &[u8]) -> usize
    ensures value { result ≡ punctuator_length text.now }
    ensures short { result ≤ length text.now }
{
    match text {
        [] => 0,
        [a] => { if is_single(*a) { 1 } else { 0 } }
        [a, b] => {
            if is_double(*a, *b) {
                2
            } else if is_single(*a) {
                1
            } else {
                0
            }
        }
        [a, b, c, ..] => {
            if is_triple(*a, *b, *c) {
                3
            } else if is_double(*a, *b) {
                2
            } else if is_single(*a) {
                1
            } else {
                0
            }
        }
    }
}
