//! Splices: a backslash with the end of the line that it joins to the next (C99 5.1.1.2, phase 2).

ghost use Rattle.std.specs.Prelude.{◌≡◌, ◌≤◌, length};
ghost use Rattle.p10_lex.specs.Splices.{line_end_length, splice_length, is_spliced};
ghost use Rattle.p10_lex.specs.private.Runs.{after_splices, after_line};

/// The length of the LF or CR LF with which a text begins, or 0.
#[tactic(auto, unfolding(crate::specs::Splices::line_end_length))]
fn line_end_length(text: &[u8]) -> usize
    ensures value { result ≡ line_end_length text.now }
    ensures short { result ≤ length text.now }
{
    match text {
        [] => 0,
        [first] => { if *first == b'\n' { 1 } else { 0 } }
        [first, second, ..] => {
            if *first == b'\n' {
                1
            } else if *first == b'\r' && *second == b'\n' {
                2
            } else {
                0
            }
        }
    }
}

/// The length of the splice with which a text begins, or 0.
#[tactic(auto, unfolding(crate::specs::Splices::splice_length))]
pub(crate) fn splice_length(text: &[u8]) -> usize
    ensures value { result ≡ splice_length text.now }
    ensures short { result ≤ length text.now }
{
    match text {
        [] => 0,
        [first, rest @ ..] => {
            if *first != b'\\' {
                return 0;
            }
            let end = line_end_length(rest);
            if 0 < end { 1 + end } else { 0 }
        }
    }
}

/// What is left after the splices with which a text begins.
#[tactic(auto, unfolding(crate::specs::private::Runs::after_splices))]
pub(crate) fn after_splices(text: &[u8]) -> &[u8]
    ensures { result.now ≡ after_splices 0 text.now }
{
    let mut rest = text;
    let mut skip = 0;
    while let [_, others @ ..] = rest {
        if 0 < skip {
            skip -= 1;
        } else {
            let splice = splice_length(rest);
            if splice == 0 {
                break;
            }
            skip = splice - 1;
        }
        rest = others;
    }
    rest
}

/// Whether an LF after these two bytes stands in a splice.
#[inline]
#[tactic(auto, unfolding(crate::specs::Splices::is_spliced))]
fn is_spliced(older: u8, old: u8) -> bool
    ensures { result ≡ is_spliced older old }
{
    old == b'\\' || (old == b'\r' && older == b'\\')
}

/// What is left after a line: the LF that ends it with what follows, or nothing. The byte `before` stands
/// before the text.
#[tactic(auto, unfolding(crate::specs::private::Runs::after_line))]
pub(crate) fn after_line(before: u8, text: &[u8]) -> &[u8]
    ensures { result.now ≡ after_line 0 before text.now }
{
    let mut rest = text;
    let mut older = 0;
    let mut old = before;
    while let [first, others @ ..] = rest {
        if *first == b'\n' && !is_spliced(older, old) {
            break;
        }
        older = old;
        old = *first;
        rest = others;
    }
    rest
}
