// Decimal digits, one behind the other: a number grows by a digit, has no leading zero, and is not above the largest that is asked for.
ghost use Rattle.text.specs.Told.{Begins, Grows, DigitOf};

// The number that a digit stands for, if it does.
pub fn value_of(digit: u8) -> Option<u32>
    ensures { DigitOf digit result }
{
    match digit {
        b'0'..=b'9' => Some(u32::from(digit - b'0')),
        _ => None,
    }
}

// The number of one digit. With one digit more a number has another rule, no zero before, and a test of its own: two sentences of the form.
pub fn first_digit(digit: u8, most: u32) -> Option<u32>
    ensures { Begins digit most result }
{
    let value = value_of(digit)?;
    if most < value {
        return None;
    }
    Some(value)
}

// A number with one digit more: not behind a zero, and not above the largest.
pub fn with_digit(value: u32, digit: u8, most: u32) -> Option<u32>
    ensures { Grows value digit most result }
{
    let last = value_of(digit)?;
    if value == 0 {
        return None;
    }
    let more = 10 * u64::from(value) + u64::from(last);
    if u64::from(most) < more {
        return None;
    }
    Some(more as u32)
}
