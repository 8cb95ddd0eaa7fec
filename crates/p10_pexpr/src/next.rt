//! What the next word is to a reader.

ghost use Rattle.std.specs.Prelude.{◌≡◌, ◌||◌, drop};
ghost use Rattle.p10_syn.specs.Forms.{is_storage as stores, is_qualifier as qualifies, is_inline as inlines, is_structure as structures, is_specifier_word as may_specify, says_nothing as leaves_open, says_no_name as leaves_words, may_store as can_store, may_have_body as can_have_body};
ghost use Rattle.p10_syn.specs.Tokens.{symbol_at};
ghost use Rattle.p10_pexpr.specs.Tables.{next_of_sign, next_of, next_at, pull as pulls, need as needs, goes_on as goes, start_of, is_enumeration as enumerates, is_specifier_start as starts_specifiers, begins_specifier as begins_by, begins_specifiers as begins, specifying_sign, specifying_by, specifying_at, is_other as none_begins, opens_parameters as opens};

use crate::cursor::Cursor;
use crate::scope::Scope;
use p10_syn::{Said, Setting, Sign, Token, binary_level, is_type_word};

/// What the next word is to an expression that was read before it.
#[derive(Clone, Copy)]
pub enum Next {
    /// An operator between two operands.
    Joins(Sign),
    /// An assignment operator.
    Sets(Sign),
    /// `?`
    Asks,
    /// `,`
    Lists,
    /// `[`
    Indexes,
    /// `(`
    Calls,
    /// `.`
    Selects,
    /// `->`
    Points,
    /// `++` or `--`
    Counts(Sign),
    /// A string, which stands after no expression.
    Quotes,
    /// Any other word: the expression ends before it.
    Ends,
}

impl Next {
    /// What the next word is to an expression before it.
    pub fn at(cursor: &Cursor<'_, '_>) -> Next
        ensures { result ≡ next_at cursor.now }
    {
        match cursor.next() {
            Some(token) => Next::of(token),
            None => Next::Ends,
        }
    }

    fn of(token: Token<'_>) -> Next
        ensures { result ≡ next_of (symbol_at token.entry) }
    {
        match token {
            Token::Fixed(sign) => Next::of_sign(sign),
            Token::Str(_) => Next::Quotes,
            _ => Next::Ends,
        }
    }

    fn of_sign(sign: Sign) -> Next
        ensures { result ≡ next_of_sign sign }
    {
        match sign {
            Sign::OrOr
            | Sign::AndAnd
            | Sign::Bar
            | Sign::Caret
            | Sign::And
            | Sign::Equal
            | Sign::NotEqual
            | Sign::Less
            | Sign::Greater
            | Sign::LessEqual
            | Sign::GreaterEqual
            | Sign::ShiftLeft
            | Sign::ShiftRight
            | Sign::Plus
            | Sign::Minus
            | Sign::Star
            | Sign::Slash
            | Sign::Percent => Next::Joins(sign),
            Sign::Assign
            | Sign::StarAssign
            | Sign::SlashAssign
            | Sign::PercentAssign
            | Sign::PlusAssign
            | Sign::MinusAssign
            | Sign::ShiftLeftAssign
            | Sign::ShiftRightAssign
            | Sign::AndAssign
            | Sign::CaretAssign
            | Sign::BarAssign => Next::Sets(sign),
            Sign::Question => Next::Asks,
            Sign::Comma => Next::Lists,
            Sign::OpenSquare => Next::Indexes,
            Sign::Open => Next::Calls,
            Sign::Dot => Next::Selects,
            Sign::Arrow => Next::Points,
            Sign::Increment | Sign::Decrement => Next::Counts(sign),
            _ => Next::Ends,
        }
    }

    /// The level of the expression that the next word makes.
    fn pull(self) -> u8
        ensures { result ≡ pulls self }
    {
        match self {
            Next::Joins(sign) => binary_level(sign),
            Next::Sets(_) => 2,
            Next::Asks => 3,
            Next::Lists => 1,
            Next::Quotes => 17,
            Next::Ends => 0,
            Next::Indexes | Next::Calls | Next::Selects | Next::Points | Next::Counts(_) => 16,
        }
    }

    /// The level that the expression before the next word must have at least.
    fn need(self) -> u8
        ensures { result ≡ needs self }
    {
        match self {
            Next::Joins(sign) => binary_level(sign),
            Next::Sets(_) => 15,
            Next::Asks => 4,
            Next::Lists => 2,
            Next::Quotes | Next::Ends => 18,
            Next::Indexes | Next::Calls | Next::Selects | Next::Points | Next::Counts(_) => 16,
        }
    }

    /// Whether an expression goes on with the next word, where one of `level` at least is read and one of the level `held` was.
    pub fn goes_on(self, level: u8, held: u8) -> bool
        ensures { result ≡ goes level held self }
    {
        level <= self.pull() && self.need() <= held
    }
}

/// What a keyword or punctuator begins, where an operand is read.
#[derive(Clone, Copy)]
pub enum Start {
    /// `(`: an expression in parentheses, or a cast.
    Groups,
    /// An operator before its one operand.
    Operates(Sign),
    /// `++` or `--`
    Steps(Sign),
    /// `sizeof`
    Measures,
    /// No operand.
    Nothing,
}

impl Start {
    /// What a keyword or punctuator begins.
    pub fn of(sign: Sign) -> Start
        ensures { result ≡ start_of sign }
    {
        match sign {
            Sign::Open => Start::Groups,
            Sign::And | Sign::Star | Sign::Plus | Sign::Minus | Sign::Tilde | Sign::Not => {
                Start::Operates(sign)
            }
            Sign::Increment | Sign::Decrement => Start::Steps(sign),
            Sign::Sizeof => Start::Measures,
            _ => Start::Nothing,
        }
    }
}

/// What the next word is, where specifiers are read.
#[derive(Clone, Copy)]
pub enum Specifying {
    /// A keyword that is a specifier by itself.
    Word(Sign),
    /// `struct` or `union`
    Structured(Sign),
    /// `enum`
    Enumerated,
    /// A typedef name.
    Renamed,
    /// No further specifier.
    Other,
}

impl Specifying {
    /// What the next word is in this setting, after specifiers that said this of the type.
    pub fn at(
        scope: &Scope<'_>,
        setting: Setting,
        said: Said,
        cursor: &Cursor<'_, '_>,
    ) -> Specifying
        ensures { result ≡ specifying_at scope.now setting said cursor.now }
    {
        match cursor.next() {
            Some(token) => Specifying::of(scope, setting, said, token),
            None => Specifying::Other,
        }
    }

    fn of(scope: &Scope<'_>, setting: Setting, said: Said, token: Token<'_>) -> Specifying
        ensures { result ≡ specifying_by scope.now setting said (symbol_at token.entry) }
    {
        match token {
            Token::Name(name) => {
                if scope.is_type(name) && says_nothing(said) {
                    Specifying::Renamed
                } else {
                    Specifying::Other
                }
            }
            Token::Fixed(sign) => Specifying::of_sign(setting, said, sign),
            _ => Specifying::Other,
        }
    }

    fn of_sign(setting: Setting, said: Said, sign: Sign) -> Specifying
        ensures { result ≡ specifying_sign setting said sign }
    {
        if is_specifier_word(setting, said, sign) {
            Specifying::Word(sign)
        } else if is_structure(sign) && says_no_name(said) {
            Specifying::Structured(sign)
        } else if is_enumeration(sign) && says_no_name(said) {
            Specifying::Enumerated
        } else {
            Specifying::Other
        }
    }

    /// Whether the next word is no specifier.
    pub fn is_other(self) -> bool
        ensures { result ≡ none_begins self }
    {
        matches!(self, Specifying::Other)
    }
}

/// Whether specifiers stand next.
pub fn begins_specifiers(scope: &Scope<'_>, cursor: &Cursor<'_, '_>) -> bool
    ensures { result ≡ begins scope.now cursor.now }
{
    match cursor.next() {
        Some(token) => begins_specifier(scope, token),
        None => false,
    }
}

/// Whether specifiers stand after the next word.
pub fn begins_after(scope: &Scope<'_>, cursor: &Cursor<'_, '_>) -> bool
    ensures { result ≡ begins scope.now (drop 1 cursor.now) }
{
    match cursor.second() {
        Some(token) => begins_specifier(scope, token),
        None => false,
    }
}

fn begins_specifier(scope: &Scope<'_>, token: Token<'_>) -> bool
    ensures { result ≡ begins_by scope.now (symbol_at token.entry) }
{
    match token {
        Token::Name(name) => scope.is_type(name),
        Token::Fixed(sign) => is_specifier_start(sign),
        _ => false,
    }
}

/// Whether the `(` that stands next opens the parameters of a declarator without a name, and no declarator in parentheses.
pub fn opens_parameters(scope: &Scope<'_>, cursor: &Cursor<'_, '_>) -> bool
    ensures { result ≡ opens scope.now (drop 1 cursor.now) }
{
    cursor.second_is(Sign::Close) || begins_after(scope, cursor)
}

/// Whether a structure, union or enumeration may have a body.
pub fn may_have_body(setting: Setting) -> bool
    ensures { result ≡ can_have_body setting }
{
    matches!(setting, Setting::Outside)
}

fn may_store(setting: Setting) -> bool
    ensures { result ≡ can_store setting }
{
    !matches!(setting, Setting::Type)
}

fn says_nothing(said: Said) -> bool
    ensures { result ≡ leaves_open said }
{
    matches!(said, Said::Nothing)
}

fn says_no_name(said: Said) -> bool
    ensures { result ≡ leaves_words said }
{
    !matches!(said, Said::TypedefName)
}

fn is_specifier_word(setting: Setting, said: Said, sign: Sign) -> bool
    ensures { result ≡ may_specify setting said sign }
{
    (is_storage(sign) && may_store(setting))
        || (is_qualifier(sign) || (is_inline(sign) || (is_type_word(sign) && says_no_name(said))))
}

/// Whether a keyword begins specifiers.
fn is_specifier_start(sign: Sign) -> bool
    ensures { result ≡ starts_specifiers sign }
{
    is_storage(sign)
        || (is_qualifier(sign)
            || (is_inline(sign)
                || (is_type_word(sign) || (is_structure(sign) || is_enumeration(sign)))))
}

fn is_storage(sign: Sign) -> bool
    ensures { result ≡ stores sign }
{
    matches!(
        sign,
        Sign::Typedef | Sign::Extern | Sign::Static | Sign::Auto | Sign::Register
    )
}

/// Whether a keyword is a qualifier.
pub fn is_qualifier(sign: Sign) -> bool
    ensures { result ≡ qualifies sign }
{
    matches!(sign, Sign::Const | Sign::Restrict | Sign::Volatile)
}

fn is_inline(sign: Sign) -> bool
    ensures { result ≡ inlines sign }
{
    matches!(sign, Sign::Inline)
}

fn is_structure(sign: Sign) -> bool
    ensures { result ≡ structures sign }
{
    matches!(sign, Sign::Struct | Sign::Union)
}

fn is_enumeration(sign: Sign) -> bool
    ensures { result ≡ enumerates sign }
{
    matches!(sign, Sign::Enum)
}
