//! Decimal numbers.

ghost use Rattle.std.specs.Prelude.{◌≡◌, ◌+◌, ◌-◌, ◌*◌, ◌≤◌, MatchOption};
ghost use Rattle.script.specs.Says.{any, byte, max_u64, number};
ghost use Rattle.script.specs.Shapes.{ReadWord};
ghost use Rattle.script.specs.Text.{Digit};

/// The value of the digits so far with one more digit, below 2 to the 64.
fn push_digit(value: u64, byte: u8) -> Option<u64>
    ensures { MatchOption result (Digit byte → value * 10 + (byte - 48) ≤ max_u64 → ⊥) (λ v. Digit byte × (v ≡ value * 10 + (byte - 48))) }
{
    match byte {
        b'0'..=b'9' => value.checked_mul(10)?.checked_add(u64::from(byte - b'0')),
        _ => None,
    }
}

/// The value of a word of decimal digits, below 2 to the 64.
// Not the library's `parse`, which takes a sign, and text.
fn number(word: &[u8]) -> Option<u64>
    ensures { ReadWord any word.now result }
{
    if word.is_empty() {
        return None;
    }
    let mut value: u64 = 0;
    for byte in word {
        value = push_digit(value, *byte)?;
    }
    Some(value)
}

/// The value of a word of decimal digits, at most a limit.
pub fn number_up_to(word: &[u8], limit: u64) -> Option<u64>
    ensures { ReadWord (number limit) word.now result }
{
    number(word).filter(|value| *value <= limit)
}

/// The value of a word of decimal digits, of one byte.
pub fn byte(word: &[u8]) -> Option<u8>
    ensures { ReadWord byte word.now result }
{
    u8::try_from(number(word)?).ok()
}
