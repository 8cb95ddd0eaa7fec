//! The integer types of C99 6.2.5, their ranges and their conversions.

ghost use Rattle.std.specs.Prelude.{◌≡◌, ◌≤◌, ◌↔◌, IsTrue, pos};
ghost use Rattle.p10_int.specs.Types.{InRange, range_of, width_of, is_signed_of, modulus_of, rank_of, promoted, unsigned_of, usual_of, mixed_of, holds_all};

/// An integer type (C99 6.2.5); an enumerated type is `Int`.
#[derive(Clone, Copy, Debug, PartialEq, Eq)]
pub enum IntType {
    /// `_Bool`, with the values 0 and 1.
    Bool,
    /// `char`, which is signed.
    Char,
    /// `signed char`.
    SChar,
    /// `unsigned char`.
    UChar,
    /// `short`, 16 bits.
    Short,
    /// `unsigned short`.
    UShort,
    /// `int`, 32 bits.
    Int,
    /// `unsigned int`.
    UInt,
    /// `long`, 64 bits.
    Long,
    /// `unsigned long`.
    ULong,
    /// `long long`, 64 bits.
    LLong,
    /// `unsigned long long`.
    ULLong,
}

/// The least and the greatest value of the type (C99 6.2.6.2, 5.2.4.2.1).
pub fn range(t: IntType) -> (i128, i128)
    ensures { result ≡ range_of t }
{
    match t {
        IntType::Bool => (0, 1),
        IntType::Char | IntType::SChar => (-128, 127),
        IntType::UChar => (0, 255),
        IntType::Short => (-32_768, 32_767),
        IntType::UShort => (0, 65_535),
        IntType::Int => (-2_147_483_648, 2_147_483_647),
        IntType::UInt => (0, 4_294_967_295),
        IntType::Long | IntType::LLong => (-9_223_372_036_854_775_808, 9_223_372_036_854_775_807),
        IntType::ULong | IntType::ULLong => (0, 18_446_744_073_709_551_615),
    }
}

/// Whether the number is a value of the type.
pub fn holds(t: IntType, v: i128) -> bool
    ensures { IsTrue result ↔ InRange t v }
{
    let (least, greatest) = range(t);
    least <= v && v <= greatest
}

/// The number of value bits and, in a signed type, the sign bit (C99 6.2.6.2).
pub fn width(t: IntType) -> u32
    ensures value { result ≡ width_of t }
    ensures small { result ≤ 64 }
{
    match t {
        IntType::Bool => 1,
        IntType::Char | IntType::SChar | IntType::UChar => 8,
        IntType::Short | IntType::UShort => 16,
        IntType::Int | IntType::UInt => 32,
        IntType::Long | IntType::ULong | IntType::LLong | IntType::ULLong => 64,
    }
}

/// Whether the type has negative values.
pub fn is_signed(t: IntType) -> bool
    ensures { result ≡ is_signed_of t }
{
    match t {
        IntType::Char
        | IntType::SChar
        | IntType::Short
        | IntType::Int
        | IntType::Long
        | IntType::LLong => true,
        IntType::Bool
        | IntType::UChar
        | IntType::UShort
        | IntType::UInt
        | IntType::ULong
        | IntType::ULLong => false,
    }
}

/// How many patterns of bits the type has: 2 to the power of its width.
pub fn modulus(t: IntType) -> i128
    ensures { result ≡ pos (modulus_of t) }
{
    match t {
        IntType::Bool => 2,
        IntType::Char | IntType::SChar | IntType::UChar => 256,
        IntType::Short | IntType::UShort => 65_536,
        IntType::Int | IntType::UInt => 4_294_967_296,
        IntType::Long | IntType::ULong | IntType::LLong | IntType::ULLong =>
            18_446_744_073_709_551_616,
    }
}

/// The conversion rank of the type among the twelve, from 0 (C99 6.3.1.1).
pub fn rank(t: IntType) -> u32
    ensures { result ≡ rank_of t }
{
    match t {
        IntType::Bool => 0,
        IntType::Char | IntType::SChar | IntType::UChar => 1,
        IntType::Short | IntType::UShort => 2,
        IntType::Int | IntType::UInt => 3,
        IntType::Long | IntType::ULong => 4,
        IntType::LLong | IntType::ULLong => 5,
    }
}

/// The type after the integer promotions: `int` for every type below `int` (C99 6.3.1.1).
pub fn promote(t: IntType) -> IntType
    ensures { result ≡ promoted t }
{
    if rank(t) < rank(IntType::Int) {
        IntType::Int
    } else {
        t
    }
}

/// The unsigned type that corresponds to the type, or the type itself where it is unsigned (C99 6.2.5).
pub fn unsigned(t: IntType) -> IntType
    ensures { result ≡ unsigned_of t }
{
    match t {
        IntType::Bool => IntType::Bool,
        IntType::Char | IntType::SChar | IntType::UChar => IntType::UChar,
        IntType::Short | IntType::UShort => IntType::UShort,
        IntType::Int | IntType::UInt => IntType::UInt,
        IntType::Long | IntType::ULong => IntType::ULong,
        IntType::LLong | IntType::ULLong => IntType::ULLong,
    }
}

/// The common type of two operands after the usual arithmetic conversions (C99 6.3.1.8).
pub fn usual(a: IntType, b: IntType) -> IntType
    ensures { result ≡ usual_of a b }
{
    let (a, b) = (promote(a), promote(b));
    match (is_signed(a), is_signed(b)) {
        (true, false) => mixed(a, b),
        (false, true) => mixed(b, a),
        _ => if rank(a) < rank(b) { b } else { a },
    }
}

/// The common type of a promoted signed type and a promoted unsigned one.
fn mixed(signed: IntType, other: IntType) -> IntType
    ensures { result ≡ mixed_of signed other }
{
    if rank(signed) <= rank(other) {
        other
    } else if has_all(signed, other) {
        signed
    } else {
        unsigned(signed)
    }
}

/// Whether the first type has all values of the second.
fn has_all(t: IntType, other: IntType) -> bool
    ensures { result ≡ holds_all t other }
{
    let (least, greatest) = range(t);
    let (low, high) = range(other);
    least <= low && high <= greatest
}
