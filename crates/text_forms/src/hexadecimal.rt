//! Bytes in hexadecimal.

ghost use Rattle.std.specs.Prelude.{◌≡◌, ◌<◌, ◌++◌, IfOk, vec_items, string_bytes, OnOk};
ghost use Rattle.std.specs.Option.{option_map};
ghost use Rattle.text_forms.specs.Hexadecimal.{digit_value, hexadecimal, bytes_of, digit_of, spaced, bytes_text, BytesBack};

use std::alloc::{AllocError, Global};
use std::fmt;

/// The value of a hexadecimal digit.
fn digit(c: u8) -> Option<u8>
    ensures { result ≡ digit_value c }
{
    char::from(c).to_digit(16).map(|value| value as u8)
}

/// Whether a text is hexadecimal digits and spaces alone.
pub fn is_hexadecimal(text: &str) -> bool
    ensures { result ≡ hexadecimal text.now }
{
    text.as_bytes()
        .iter()
        .all(|c| *c == b' ' || digit(*c).is_some())
}

/// The bytes that pairs of hexadecimal digits stand for, spaces left out; none where the text is not such pairs.
pub fn bytes(heap: Global, text: &str) -> Result<Option<Vec<u8>>, AllocError>
    ensures { IfOk result (λ given. option_map vec_items given ≡ bytes_of text.now) }
{
    let mut bytes = Vec::new(heap);
    let mut high = None;
    // kept: try_fold would carry the bytes and the waiting digit, and stop for two reasons.
    for c in text.as_bytes() {
        if *c == b' ' {
            continue;
        }
        let Some(value) = digit(*c) else {
            return Ok(None);
        };
        match high {
            None => high = Some(value),
            Some(first) => {
                bytes.push(first * 16 + value)?;
                high = None;
            }
        }
    }
    if high.is_some() {
        return Ok(None);
    }
    Ok(Some(bytes))
}

/// The digit of a value below 16.
fn digit_of(value: u8) -> char
    requires { value < 16 }
    ensures { result ≡ digit_of value }
{
    char::from_digit(u32::from(value), 16).unwrap()
}

/// A byte, after a space where there is one.
// kept: two digits; `{byte:02x}` was tried, and words are written in a third more time.
fn show_byte(space: bool, byte: u8, out: &mut String) -> Result<(), AllocError>
    ensures { OnOk result (string_bytes out.new ≡ string_bytes out.old ++ spaced space byte) }
{
    let high = digit_of(byte / 16);
    let low = digit_of(byte % 16);
    if space {
        write!(out, " {high}{low}")
    } else {
        write!(out, "{high}{low}")
    }
}

/// Adds bytes in hexadecimal to a text, groups of four with a space between. With it stands the law that what is shown reads back.
pub fn show_bytes(bytes: &[u8], out: &mut String) -> fmt::Result
    ensures shown { OnOk result (string_bytes out.new ≡ string_bytes out.old ++ bytes_text bytes.now) }
    ensures back { BytesBack }
{
    // kept: an index; chunks(4) would take a loop in a loop, and still count for the space before all but the first.
    for (i, byte) in bytes.iter().enumerate() {
        show_byte(i > 0 && i % 4 == 0, *byte, out)?;
    }
    Ok(())
}
