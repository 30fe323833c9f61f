//! Numbers in decimal: one text for each.

ghost use Rattle.std.specs.Prelude.{◌≡◌};
ghost use Rattle.text_forms.specs.Numbers.{number};

/// The number that a text stands for: digits alone, no zero in front, below 2^32.
pub fn number(text: &str) -> Option<u32>
    ensures { result ≡ number text.now }
{
    match text.as_bytes() {
        [b'+', ..] | [b'0', _, ..] => None,
        _ => text.parse::<u32>().ok(),
    }
}
