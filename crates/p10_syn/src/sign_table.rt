//! How keywords and punctuators are written.

ghost use Rattle.std.specs.Prelude.{◌≡◌};
ghost use Rattle.p10_syn.specs.Signs.{spelling as written, keywords, punctuators, sign_among as first_among, same_sign, number_of};
ghost use Rattle.p10_syn.specs.private.Lengths.{DoForLength};

use crate::sign::Sign;

/// The keywords (C99 6.4.1).
const KEYWORDS: [Sign; 37] = [
    Sign::Auto,
    Sign::Break,
    Sign::Case,
    Sign::Char,
    Sign::Const,
    Sign::Continue,
    Sign::Default,
    Sign::Do,
    Sign::Double,
    Sign::Else,
    Sign::Enum,
    Sign::Extern,
    Sign::Float,
    Sign::For,
    Sign::Goto,
    Sign::If,
    Sign::Inline,
    Sign::Int,
    Sign::Long,
    Sign::Register,
    Sign::Restrict,
    Sign::Return,
    Sign::Short,
    Sign::Signed,
    Sign::Sizeof,
    Sign::Static,
    Sign::Struct,
    Sign::Switch,
    Sign::Typedef,
    Sign::Union,
    Sign::Unsigned,
    Sign::Void,
    Sign::Volatile,
    Sign::While,
    Sign::Bool,
    Sign::Complex,
    Sign::Imaginary,
];

// The keywords by the number of bytes with which they are written.
const OF_TWO: [Sign; 2] = [Sign::Do, Sign::If];

const OF_THREE: [Sign; 2] = [Sign::For, Sign::Int];

const OF_FOUR: [Sign; 8] = [
    Sign::Auto,
    Sign::Case,
    Sign::Char,
    Sign::Else,
    Sign::Enum,
    Sign::Goto,
    Sign::Long,
    Sign::Void,
];

const OF_FIVE: [Sign; 7] = [
    Sign::Break,
    Sign::Const,
    Sign::Float,
    Sign::Short,
    Sign::Union,
    Sign::While,
    Sign::Bool,
];

const OF_SIX: [Sign; 9] = [
    Sign::Double,
    Sign::Extern,
    Sign::Inline,
    Sign::Return,
    Sign::Signed,
    Sign::Sizeof,
    Sign::Static,
    Sign::Struct,
    Sign::Switch,
];

const OF_SEVEN: [Sign; 2] = [Sign::Default, Sign::Typedef];

const OF_EIGHT: [Sign; 6] = [
    Sign::Continue,
    Sign::Register,
    Sign::Restrict,
    Sign::Unsigned,
    Sign::Volatile,
    Sign::Complex,
];

const OF_TEN: [Sign; 1] = [Sign::Imaginary];

/// The punctuators (C99 6.4.6).
const PUNCTUATORS: [Sign; 48] = [
    Sign::OpenSquare,
    Sign::CloseSquare,
    Sign::Open,
    Sign::Close,
    Sign::OpenBrace,
    Sign::CloseBrace,
    Sign::Dot,
    Sign::Arrow,
    Sign::Increment,
    Sign::Decrement,
    Sign::And,
    Sign::Star,
    Sign::Plus,
    Sign::Minus,
    Sign::Tilde,
    Sign::Not,
    Sign::Slash,
    Sign::Percent,
    Sign::ShiftLeft,
    Sign::ShiftRight,
    Sign::Less,
    Sign::Greater,
    Sign::LessEqual,
    Sign::GreaterEqual,
    Sign::Equal,
    Sign::NotEqual,
    Sign::Caret,
    Sign::Bar,
    Sign::AndAnd,
    Sign::OrOr,
    Sign::Question,
    Sign::Colon,
    Sign::Semicolon,
    Sign::Ellipsis,
    Sign::Assign,
    Sign::StarAssign,
    Sign::SlashAssign,
    Sign::PercentAssign,
    Sign::PlusAssign,
    Sign::MinusAssign,
    Sign::ShiftLeftAssign,
    Sign::ShiftRightAssign,
    Sign::AndAssign,
    Sign::CaretAssign,
    Sign::BarAssign,
    Sign::Comma,
    Sign::Hash,
    Sign::HashHash,
];

/// The keyword that is written so.
pub fn keyword(text: &[u8]) -> Option<Sign>
    ensures { result ≡ first_among keywords text.now }
{
    sign_among(keywords_of_length(text.len()), text)
}

/// The keywords that are written with `bytes` bytes.
#[tactic(auto, unfolding(crate::specs::Signs::keywords, crate::specs::Signs::spelling))]
fn keywords_of_length(bytes: usize) -> &'static [Sign]
    ensures { DoForLength bytes result.now }
{
    match bytes {
        2 => &OF_TWO,
        3 => &OF_THREE,
        4 => &OF_FOUR,
        5 => &OF_FIVE,
        6 => &OF_SIX,
        7 => &OF_SEVEN,
        8 => &OF_EIGHT,
        10 => &OF_TEN,
        0 | 1 | 9 => &[],
        _ => longer_keywords(bytes),
    }
}

/// No keyword is written with more than ten bytes.
fn longer_keywords(bytes: usize) -> &'static [Sign]
    ensures { DoForLength bytes result.now }
{
    if bytes > 10 { &[] } else { &KEYWORDS }
}

/// The punctuator that is written so; those of one byte that stand most often in programs are found at once.
#[tactic(auto, unfolding(crate::specs::Signs::punctuators, crate::specs::Signs::spelling))]
pub fn punctuator(text: &[u8]) -> Option<Sign>
    ensures { result ≡ first_among punctuators text.now }
{
    match text {
        [b';'] => Some(Sign::Semicolon),
        [b','] => Some(Sign::Comma),
        [b'='] => Some(Sign::Assign),
        [b'*'] => Some(Sign::Star),
        [b'-'] => Some(Sign::Minus),
        [b'+'] => Some(Sign::Plus),
        [b'<'] => Some(Sign::Less),
        [b'>'] => Some(Sign::Greater),
        [b':'] => Some(Sign::Colon),
        _ => sign_among(&PUNCTUATORS, text),
    }
}

/// The first of these signs that is written so.
fn sign_among(signs: &[Sign], text: &[u8]) -> Option<Sign>
    ensures { result ≡ first_among signs.now text.now }
{
    let mut rest = signs;
    while let [first, others @ ..] = rest {
        if text == spelling(*first) {
            return Some(*first);
        }
        rest = others;
    }
    None
}

/// How a sign is written.
#[tactic(auto, unfolding(crate::specs::Signs::spelling))]
pub fn spelling(sign: Sign) -> &'static [u8]
    ensures { result.now ≡ written sign }
{
    match sign {
        Sign::Auto => b"auto".as_slice(),
        Sign::Break => b"break".as_slice(),
        Sign::Case => b"case".as_slice(),
        Sign::Char => b"char".as_slice(),
        Sign::Const => b"const".as_slice(),
        Sign::Continue => b"continue".as_slice(),
        Sign::Default => b"default".as_slice(),
        Sign::Do => b"do".as_slice(),
        Sign::Double => b"double".as_slice(),
        Sign::Else => b"else".as_slice(),
        Sign::Enum => b"enum".as_slice(),
        Sign::Extern => b"extern".as_slice(),
        Sign::Float => b"float".as_slice(),
        Sign::For => b"for".as_slice(),
        Sign::Goto => b"goto".as_slice(),
        Sign::If => b"if".as_slice(),
        Sign::Inline => b"inline".as_slice(),
        Sign::Int => b"int".as_slice(),
        Sign::Long => b"long".as_slice(),
        Sign::Register => b"register".as_slice(),
        Sign::Restrict => b"restrict".as_slice(),
        Sign::Return => b"return".as_slice(),
        Sign::Short => b"short".as_slice(),
        Sign::Signed => b"signed".as_slice(),
        Sign::Sizeof => b"sizeof".as_slice(),
        Sign::Static => b"static".as_slice(),
        Sign::Struct => b"struct".as_slice(),
        Sign::Switch => b"switch".as_slice(),
        Sign::Typedef => b"typedef".as_slice(),
        Sign::Union => b"union".as_slice(),
        Sign::Unsigned => b"unsigned".as_slice(),
        Sign::Void => b"void".as_slice(),
        Sign::Volatile => b"volatile".as_slice(),
        Sign::While => b"while".as_slice(),
        Sign::Bool => b"_Bool".as_slice(),
        Sign::Complex => b"_Complex".as_slice(),
        Sign::Imaginary => b"_Imaginary".as_slice(),
        Sign::OpenSquare => b"[".as_slice(),
        Sign::CloseSquare => b"]".as_slice(),
        Sign::Open => b"(".as_slice(),
        Sign::Close => b")".as_slice(),
        Sign::OpenBrace => b"{".as_slice(),
        Sign::CloseBrace => b"}".as_slice(),
        Sign::Dot => b".".as_slice(),
        Sign::Arrow => b"->".as_slice(),
        Sign::Increment => b"++".as_slice(),
        Sign::Decrement => b"--".as_slice(),
        Sign::And => b"&".as_slice(),
        Sign::Star => b"*".as_slice(),
        Sign::Plus => b"+".as_slice(),
        Sign::Minus => b"-".as_slice(),
        Sign::Tilde => b"~".as_slice(),
        Sign::Not => b"!".as_slice(),
        Sign::Slash => b"/".as_slice(),
        Sign::Percent => b"%".as_slice(),
        Sign::ShiftLeft => b"<<".as_slice(),
        Sign::ShiftRight => b">>".as_slice(),
        Sign::Less => b"<".as_slice(),
        Sign::Greater => b">".as_slice(),
        Sign::LessEqual => b"<=".as_slice(),
        Sign::GreaterEqual => b">=".as_slice(),
        Sign::Equal => b"==".as_slice(),
        Sign::NotEqual => b"!=".as_slice(),
        Sign::Caret => b"^".as_slice(),
        Sign::Bar => b"|".as_slice(),
        Sign::AndAnd => b"&&".as_slice(),
        Sign::OrOr => b"||".as_slice(),
        Sign::Question => b"?".as_slice(),
        Sign::Colon => b":".as_slice(),
        Sign::Semicolon => b";".as_slice(),
        Sign::Ellipsis => b"...".as_slice(),
        Sign::Assign => b"=".as_slice(),
        Sign::StarAssign => b"*=".as_slice(),
        Sign::SlashAssign => b"/=".as_slice(),
        Sign::PercentAssign => b"%=".as_slice(),
        Sign::PlusAssign => b"+=".as_slice(),
        Sign::MinusAssign => b"-=".as_slice(),
        Sign::ShiftLeftAssign => b"<<=".as_slice(),
        Sign::ShiftRightAssign => b">>=".as_slice(),
        Sign::AndAssign => b"&=".as_slice(),
        Sign::CaretAssign => b"^=".as_slice(),
        Sign::BarAssign => b"|=".as_slice(),
        Sign::Comma => b",".as_slice(),
        Sign::Hash => b"#".as_slice(),
        Sign::HashHash => b"##".as_slice(),
    }
}

/// Whether two signs are one.
pub fn is_same(a: Sign, b: Sign) -> bool
    ensures { result ≡ same_sign a b }
{
    number(a) == number(b)
}

/// The number of a sign, by which two are told apart.
fn number(sign: Sign) -> u8
    ensures { result ≡ number_of sign }
{
    match sign {
        Sign::Auto => 0,
        Sign::Break => 1,
        Sign::Case => 2,
        Sign::Char => 3,
        Sign::Const => 4,
        Sign::Continue => 5,
        Sign::Default => 6,
        Sign::Do => 7,
        Sign::Double => 8,
        Sign::Else => 9,
        Sign::Enum => 10,
        Sign::Extern => 11,
        Sign::Float => 12,
        Sign::For => 13,
        Sign::Goto => 14,
        Sign::If => 15,
        Sign::Inline => 16,
        Sign::Int => 17,
        Sign::Long => 18,
        Sign::Register => 19,
        Sign::Restrict => 20,
        Sign::Return => 21,
        Sign::Short => 22,
        Sign::Signed => 23,
        Sign::Sizeof => 24,
        Sign::Static => 25,
        Sign::Struct => 26,
        Sign::Switch => 27,
        Sign::Typedef => 28,
        Sign::Union => 29,
        Sign::Unsigned => 30,
        Sign::Void => 31,
        Sign::Volatile => 32,
        Sign::While => 33,
        Sign::Bool => 34,
        Sign::Complex => 35,
        Sign::Imaginary => 36,
        Sign::OpenSquare => 37,
        Sign::CloseSquare => 38,
        Sign::Open => 39,
        Sign::Close => 40,
        Sign::OpenBrace => 41,
        Sign::CloseBrace => 42,
        Sign::Dot => 43,
        Sign::Arrow => 44,
        Sign::Increment => 45,
        Sign::Decrement => 46,
        Sign::And => 47,
        Sign::Star => 48,
        Sign::Plus => 49,
        Sign::Minus => 50,
        Sign::Tilde => 51,
        Sign::Not => 52,
        Sign::Slash => 53,
        Sign::Percent => 54,
        Sign::ShiftLeft => 55,
        Sign::ShiftRight => 56,
        Sign::Less => 57,
        Sign::Greater => 58,
        Sign::LessEqual => 59,
        Sign::GreaterEqual => 60,
        Sign::Equal => 61,
        Sign::NotEqual => 62,
        Sign::Caret => 63,
        Sign::Bar => 64,
        Sign::AndAnd => 65,
        Sign::OrOr => 66,
        Sign::Question => 67,
        Sign::Colon => 68,
        Sign::Semicolon => 69,
        Sign::Ellipsis => 70,
        Sign::Assign => 71,
        Sign::StarAssign => 72,
        Sign::SlashAssign => 73,
        Sign::PercentAssign => 74,
        Sign::PlusAssign => 75,
        Sign::MinusAssign => 76,
        Sign::ShiftLeftAssign => 77,
        Sign::ShiftRightAssign => 78,
        Sign::AndAssign => 79,
        Sign::CaretAssign => 80,
        Sign::BarAssign => 81,
        Sign::Comma => 82,
        Sign::Hash => 83,
        Sign::HashHash => 84,
    }
}
