//! How statements begin.

ghost use Rattle.std.specs.Prelude.{◌≡◌};
ghost use Rattle.p10_syn.specs.Tokens.{symbol_at};
ghost use Rattle.p10_parse.specs.Ways.{way_of_sign, way_at, is_label as labels, begins_declaration as declares};

use p10_pexpr::{Cursor, Scope, begins_specifiers};
use p10_syn::{Sign, Token};

/// What the first word of a statement, or the first two, say of it.
#[derive(Clone, Copy)]
pub enum Way {
    /// `;`
    Ends,
    /// `{`
    Braces,
    /// `if`
    Ifs,
    /// `switch`
    Switches,
    /// `while`
    Whiles,
    /// `do`
    Dos,
    /// `for`
    Fors,
    /// `case`
    Cases,
    /// `default`
    Defaults,
    /// A name and `:`.
    Labels,
    /// `goto`
    Gotos,
    /// `break`
    Breaks,
    /// `continue`
    Continues,
    /// `return`
    Returns,
    /// Anything else, as an expression.
    Values,
}

impl Way {
    /// How the statement begins that stands next.
    pub fn at(cursor: &Cursor<'_, '_>) -> Way
        ensures { result ≡ way_at cursor.now }
    {
        if is_label(cursor) {
            return Way::Labels;
        }
        match cursor.next() {
            Some(Token::Fixed(sign)) => Way::of(sign),
            _ => Way::Values,
        }
    }

    fn of(sign: Sign) -> Way
        ensures { result ≡ way_of_sign sign }
    {
        match sign {
            Sign::Semicolon => Way::Ends,
            Sign::OpenBrace => Way::Braces,
            Sign::If => Way::Ifs,
            Sign::Switch => Way::Switches,
            Sign::While => Way::Whiles,
            Sign::Do => Way::Dos,
            Sign::For => Way::Fors,
            Sign::Case => Way::Cases,
            Sign::Default => Way::Defaults,
            Sign::Goto => Way::Gotos,
            Sign::Break => Way::Breaks,
            Sign::Continue => Way::Continues,
            Sign::Return => Way::Returns,
            _ => Way::Values,
        }
    }
}

/// Whether a label stands next: a name and `:`.
pub fn is_label(cursor: &Cursor<'_, '_>) -> bool
    ensures { result ≡ labels cursor.now }
{
    cursor.next_name().is_some() && cursor.second_is(Sign::Colon)
}

/// Whether an item of a block that stands next is a declaration.
pub fn begins_declaration(scope: &Scope<'_>, cursor: &Cursor<'_, '_>) -> bool
    ensures { result ≡ declares scope.now cursor.now }
{
    begins_specifiers(scope, cursor) && !is_label(cursor)
}
