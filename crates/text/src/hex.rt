// Lower-case hex: two digits a byte, the high half first.
ghost use Rattle.std.specs.Prelude.{◌≡◌, ◌<◌};
ghost use Rattle.text.specs.Digits.{hex_digit};
ghost use Rattle.text.specs.Told.{HalfOf, ByteOf};

// The half of a byte that a digit stands for, if it does.
fn half_of(digit: u8) -> Option<u8>
    ensures { HalfOf digit result }
{
    match digit {
        b'0'..=b'9' => Some(digit - b'0'),
        b'a'..=b'f' => Some(digit - b'a' + 10),
        _ => None,
    }
}

// The byte that two digits stand for, if they do.
pub fn byte_of(high: u8, low: u8) -> Option<u8>
    ensures { ByteOf high low result }
{
    let first = half_of(high)?;
    let second = half_of(low)?;
    Some(16 * first + second)
}

// The digit of a half of a byte. The library's `char::from_digit` gives a `char`, to be brought back to a byte: no plainer.
pub fn digit_of(half: u8) -> u8
    requires { half < 16 }
    ensures { result ≡ hex_digit half }
{
    if half < 10 {
        b'0' + half
    } else {
        b'a' + (half - 10)
    }
}
