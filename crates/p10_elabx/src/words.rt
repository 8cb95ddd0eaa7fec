//! What specifiers say by their form: the words of a type among them (C99 6.7.2).

ghost use Rattle.std.specs.Prelude.{◌≡◌, ◌+◌, ◌<◌, ◌≤◌, option_map, map};
ghost use Rattle.p10_syn.specs.Trees.{specifier_row};
ghost use Rattle.p10_syn.specs.Built.{specifier_of};
ghost use Rattle.p10_core.specs.Types.{plain_type};
ghost use Rattle.p10_elabx.specs.TypeNames.{no_words, nothing_specified, with_word, said_keyword, said_by, said_of, signed_or_not, is_signed_once, stand, stand_alone, char_type, long_type, type_of_words, has_no_words, is_mixture, is_bad_mixture};
ghost use Rattle.p10_elabx.specs.private.Counted.{word_total, total};

use p10_core::CType;
use p10_int::IntType;
use p10_syn::{Sign, Spec};

/// How often each word of a type stands among specifiers.
#[derive(Clone, Copy, Debug)]
pub struct Words {
    pub void_words: usize,
    pub char_words: usize,
    pub short_words: usize,
    pub int_words: usize,
    pub long_words: usize,
    pub signed_words: usize,
    pub unsigned_words: usize,
    pub bool_words: usize,
}

/// What specifiers say by their form.
#[derive(Clone, Copy, Debug)]
pub struct Said {
    pub words: Words,
    /// How many typedef names, structures and enumerations stand among them.
    pub names: usize,
    /// Whether one is `const`.
    pub is_const: bool,
    /// Whether a word names a floating or complex type.
    pub floating: bool,
}

/// What specifiers say by their form.
pub fn said_of(specs: &[Spec<'_>]) -> Said
    ensures { result ≡ said_of (specifier_row (map specifier_of specs.now)) nothing_specified }
{
    let mut said = nothing_specified();
    for spec in specs {
        said = said_by(spec, said);
    }
    said
}

/// Nothing.
fn nothing_specified() -> Said
    ensures { result ≡ nothing_specified }
{
    Said {
        words: Words {
            void_words: 0,
            char_words: 0,
            short_words: 0,
            int_words: 0,
            long_words: 0,
            signed_words: 0,
            unsigned_words: 0,
            bool_words: 0,
        },
        names: 0,
        is_const: false,
        floating: false,
    }
}

/// One name of a type more.
fn one_name(said: Said) -> Said
    requires { total said < usize.MAX }
    ensures { result ≡ record said { names = said.names + 1 } }
{
    Said {
        names: said.names + 1,
        ..said
    }
}

/// What one specifier adds by its form.
#[tactic(auto, using(crate::proofs::SpecifierTrees::structure_says, crate::proofs::SpecifierTrees::enumeration_says))]
fn said_by(spec: &Spec<'_>, said: Said) -> Said
    requires { total said < usize.MAX }
    ensures value { result ≡ said_by (specifier_of spec.now) said }
    ensures count { total result ≤ total said + 1 }
{
    match spec {
        Spec::Keyword(_, word) => said_keyword(*word, said),
        Spec::Typedef(_) => one_name(said),
        Spec::Structure(_) => one_name(said),
        Spec::Enumeration(_) => one_name(said),
    }
}

/// What a keyword adds by its form.
fn said_keyword(word: Sign, said: Said) -> Said
    requires { total said < usize.MAX }
    ensures value { result ≡ said_keyword word said }
    ensures count { total result ≤ total said + 1 }
{
    match word {
        Sign::Const => Said {
            is_const: true,
            ..said
        },
        Sign::Float | Sign::Double | Sign::Complex | Sign::Imaginary => Said {
            floating: true,
            ..said
        },
        _ => Said {
            words: with_word(word, said.words),
            ..said
        },
    }
}

/// One word more of a type.
fn with_word(word: Sign, w: Words) -> Words
    requires { word_total w < usize.MAX }
    ensures value { result ≡ with_word word w }
    ensures count { word_total result ≤ word_total w + 1 }
{
    match word {
        Sign::Void => Words {
            void_words: w.void_words + 1,
            ..w
        },
        Sign::Char => Words {
            char_words: w.char_words + 1,
            ..w
        },
        Sign::Short => Words {
            short_words: w.short_words + 1,
            ..w
        },
        Sign::Int => Words {
            int_words: w.int_words + 1,
            ..w
        },
        Sign::Long => Words {
            long_words: w.long_words + 1,
            ..w
        },
        Sign::Signed => Words {
            signed_words: w.signed_words + 1,
            ..w
        },
        Sign::Unsigned => Words {
            unsigned_words: w.unsigned_words + 1,
            ..w
        },
        Sign::Bool => Words {
            bool_words: w.bool_words + 1,
            ..w
        },
        _ => w,
    }
}

/// The integer type of one rank, by whether `unsigned` stands.
fn signed_or_not(unsigned_words: usize, signed: IntType, unsigned: IntType) -> IntType
    ensures { result ≡ signed_or_not unsigned_words signed unsigned }
{
    if unsigned_words == 0 {
        signed
    } else {
        unsigned
    }
}

/// Whether at most one of `signed` and `unsigned` stands, once.
fn is_signed_once(w: &Words) -> bool
    ensures { result ≡ is_signed_once w.now }
{
    match (w.signed_words, w.unsigned_words) {
        (0, 0 | 1) | (1, 0) => true,
        _ => false,
    }
}

/// Whether `void`, `_Bool`, `char` and `short` stand this many times each.
fn stand(w: &Words, void: usize, truth: usize, char: usize, short: usize) -> bool
    ensures { result ≡ stand w.now void truth char short }
{
    w.void_words == void
        && (w.bool_words == truth && (w.char_words == char && w.short_words == short))
}

/// Whether neither `int`, `long`, `signed` nor `unsigned` stands.
fn stand_alone(w: &Words) -> bool
    ensures { result ≡ stand_alone w.now }
{
    w.int_words == 0 && (w.long_words == 0 && (w.signed_words == 0 && w.unsigned_words == 0))
}

/// The type of `char` with its sign.
fn char_type(w: &Words) -> IntType
    ensures { result ≡ char_type w.now }
{
    if w.unsigned_words == 1 {
        IntType::UChar
    } else if w.signed_words == 1 {
        IntType::SChar
    } else {
        IntType::Char
    }
}

/// The type of `int` with its `long`s.
fn long_type(w: &Words) -> Option<CType>
    ensures { option_map plain_type result ≡ long_type w.now }
{
    if w.long_words == 0 {
        if w.int_words == 0 && (w.signed_words == 0 && w.unsigned_words == 0) {
            None
        } else {
            Some(CType::integer(signed_or_not(w.unsigned_words, IntType::Int, IntType::UInt)))
        }
    } else if w.long_words == 1 {
        Some(CType::integer(signed_or_not(w.unsigned_words, IntType::Long, IntType::ULong)))
    } else if w.long_words == 2 {
        Some(CType::integer(signed_or_not(w.unsigned_words, IntType::LLong, IntType::ULLong)))
    } else {
        None
    }
}

/// The type that words name, if they are one of the lists of C99 6.7.2p2.
pub fn type_of_words(w: &Words) -> Option<CType>
    ensures { option_map plain_type result ≡ type_of_words w.now }
{
    if stand(w, 1, 0, 0, 0) && stand_alone(w) {
        Some(CType::void())
    } else if stand(w, 0, 1, 0, 0) && stand_alone(w) {
        Some(CType::integer(IntType::Bool))
    } else if !is_signed_once(w) || w.int_words > 1 {
        None
    } else if stand(w, 0, 0, 1, 0) && (w.int_words == 0 && w.long_words == 0) {
        Some(CType::integer(char_type(w)))
    } else if stand(w, 0, 0, 0, 1) && w.long_words == 0 {
        Some(CType::integer(signed_or_not(w.unsigned_words, IntType::Short, IntType::UShort)))
    } else if stand(w, 0, 0, 0, 0) {
        long_type(w)
    } else {
        None
    }
}

/// Whether the words are one of the lists, or one name stands alone.
fn is_mixture(said: &Said) -> bool
    ensures { result ≡ is_mixture said.now }
{
    (said.names == 0 && type_of_words(&said.words).is_some())
        || (said.names == 1 && (stand(&said.words, 0, 0, 0, 0) && stand_alone(&said.words)))
}

/// Whether the specifiers are a bad mixture, or none.
pub fn is_bad_mixture(said: &Said) -> bool
    ensures { result ≡ is_bad_mixture said.now }
{
    !said.floating && !is_mixture(said)
}
