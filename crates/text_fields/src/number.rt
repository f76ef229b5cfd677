// The number in a field.
// Kept: not `from_str_radix`, which takes a `+` and capital letters.
ghost use Rattle.std.specs.Prelude.{◌≡◌};
ghost use Rattle.text_fields.specs.Fields.{digit_in};

use crate::FieldValue;

// A number's digits at most: those of 64 bits.
const MOST_DIGITS: usize = 16;

fn digit(byte: u8) -> Option<u64>
    ensures { result ≡ digit_in byte }
{
    match byte {
        b'0'..=b'9' => Some(u64::from(byte - b'0')),
        b'a'..=b'f' => Some(u64::from(byte - b'a') + 10),
        _ => None,
    }
}

impl FieldValue for u64 {
    ghost use Rattle.replay_text.specs.Field.{number_of};

    ghost read = { number_of };

    fn in_text(text: &[u8]) -> Option<u64> {
        if text.is_empty() || MOST_DIGITS < text.len() {
            return None;
        }
        let mut value: u64 = 0;
        for byte in text {
            value = value * 16 + digit(*byte)?;
        }
        Some(value)
    }
}
