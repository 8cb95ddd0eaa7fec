//! Digests as text: two hexadecimal digits a byte, with lower-case letters.

ghost use Rattle.std.specs.Prelude.{◌≡◌, ◌<◌, false};
ghost use Rattle.std.specs.Fmt.{digit_glyph};
ghost use Rattle.p10_base.specs.Hex.{hex_text};

/// The text of a digest's bytes.
pub fn hex(bytes: &[u8; 32]) -> [u8; 64]
    ensures { result ≡ hex_text bytes.now }
{
    let mut text = [0u8; 64];
    for i in 0..32 {
        let high = hex_digit(bytes[i] / 16);
        let low = hex_digit(bytes[i] % 16);
        text[2 * i] = high;
        text[2 * i + 1] = low;
    }
    text
}

/// The digit of a number below 16.
fn hex_digit(number: u8) -> u8
    requires { number < 16 }
    ensures { result ≡ digit_glyph false number }
{
    if number < 10 {
        b'0' + number
    } else {
        b'a' - 10 + number
    }
}
