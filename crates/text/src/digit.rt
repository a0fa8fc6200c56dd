//! Hexadecimal digits: 0–9 and A–F.

ghost use Rattle.std.specs.Prelude.{◌≡◌, ◌%◌};
ghost use Rattle.text.specs.Digit.{byte_of, digit_of};

/// The value of a digit; none for any other byte, lower-case letters among them.
pub fn digit_of(byte: u8) -> Option<u8>
    ensures { result ≡ digit_of byte }
{
    match byte {
        b'0'..=b'9' => Some(byte - b'0'),
        b'A'..=b'F' => Some(byte - b'A' + 10),
        _ => None,
    }
}

/// The digit of a value, of which the four low bits count: what `digit_of` reads.
pub fn byte_of(value: u64) -> u8
    ensures { result ≡ byte_of (value % 16) }
{
    let value = (value & 0xF) as u8;
    if value < 10 {
        b'0' + value
    } else {
        b'A' + (value - 10)
    }
}
