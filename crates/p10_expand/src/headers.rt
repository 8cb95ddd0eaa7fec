//! The built-in headers.

ghost use Rattle.std.specs.Prelude.{◌≡◌, IfSome, option_map};
ghost use Rattle.p10_expand.specs.Finding.{name_at};
ghost use Rattle.p10_expand.specs.declared.place.Place.TheVariants.{Header as InHeader};
ghost use Rattle.p10_expand.specs.Headers.{header_of};

/// `<stdint.h>`: exact-width integer types and their limits (C99 7.18).
pub const STDINT: &[u8] = b"\
    typedef signed char int8_t;\n\
    typedef short int16_t;\n\
    typedef int int32_t;\n\
    typedef long int64_t;\n\
    typedef unsigned char uint8_t;\n\
    typedef unsigned short uint16_t;\n\
    typedef unsigned int uint32_t;\n\
    typedef unsigned long uint64_t;\n\
    #define INT8_MIN (-128)\n\
    #define INT8_MAX 127\n\
    #define UINT8_MAX 255\n\
    #define INT16_MIN (-32768)\n\
    #define INT16_MAX 32767\n\
    #define UINT16_MAX 65535\n\
    #define INT32_MIN (-2147483647 - 1)\n\
    #define INT32_MAX 2147483647\n\
    #define UINT32_MAX 4294967295u\n\
    #define INT64_MIN (-9223372036854775807 - 1)\n\
    #define INT64_MAX 9223372036854775807\n\
    #define UINT64_MAX 18446744073709551615u\n";

/// `<stdbool.h>`: the boolean type and its values (C99 7.16).
pub const STDBOOL: &[u8] = b"#define bool _Bool\n#define true 1\n#define false 0\n";

/// `<stddef.h>` and `<stdlib.h>`: the type of sizes and the null pointer (C99 7.17, 7.20).
pub const STDDEF: &[u8] = b"typedef unsigned long size_t;\n#define NULL 0\n";

/// `<stdio.h>`: further the end of a file (C99 7.19).
pub const STDIO: &[u8] = b"typedef unsigned long size_t;\n#define NULL 0\n#define EOF (-1)\n";

/// `<limits.h>`: the limits of the integer types (C99 5.2.4.2.1).
pub const LIMITS: &[u8] = b"\
    #define CHAR_BIT 8\n\
    #define SCHAR_MIN (-128)\n\
    #define SCHAR_MAX 127\n\
    #define CHAR_MIN (-128)\n\
    #define CHAR_MAX 127\n\
    #define SHRT_MIN (-32768)\n\
    #define SHRT_MAX 32767\n\
    #define INT_MIN (-2147483647 - 1)\n\
    #define INT_MAX 2147483647\n\
    #define LONG_MIN (-9223372036854775807 - 1)\n\
    #define LONG_MAX 9223372036854775807\n\
    #define LLONG_MIN (-9223372036854775807ll - 1)\n\
    #define LLONG_MAX 9223372036854775807ll\n\
    #define UCHAR_MAX 255\n\
    #define USHRT_MAX 65535\n\
    #define UINT_MAX 4294967295u\n\
    #define ULONG_MAX 18446744073709551615u\n\
    #define ULLONG_MAX 18446744073709551615ull\n";

/// `<assert.h>` and `<p10.h>`: nothing.
pub const EMPTY: &[u8] = b"";

/// A built-in header.
#[derive(Clone, Copy)]
pub struct Header {
    /// Its name between its brackets.
    pub name: &'static str,
    pub text: &'static [u8],
}

/// The built-in header with this name, which is given without its brackets.
#[tactic(auto, using(crate::proofs::Texts::texts))]
pub fn built_in(name: &[u8]) -> Option<Header>
    ensures text { option_map (λ header. header.text.now) result ≡ header_of name.now }
    ensures name { IfSome result (λ header. header.name.now ≡ name_at (InHeader name.now)) }
{
    let (name, text) = if name == b"stdint.h".as_slice() {
        ("<stdint.h>", STDINT)
    } else if name == b"stdbool.h".as_slice() {
        ("<stdbool.h>", STDBOOL)
    } else if name == b"stddef.h".as_slice() {
        ("<stddef.h>", STDDEF)
    } else if name == b"stdlib.h".as_slice() {
        ("<stdlib.h>", STDDEF)
    } else if name == b"stdio.h".as_slice() {
        ("<stdio.h>", STDIO)
    } else if name == b"limits.h".as_slice() {
        ("<limits.h>", LIMITS)
    } else if name == b"assert.h".as_slice() {
        ("<assert.h>", EMPTY)
    } else if name == b"p10.h".as_slice() {
        ("<p10.h>", EMPTY)
    } else {
        return None;
    };
    Some(Header { name, text })
}
