// A number of two bytes, low byte first.
ghost use Rattle.std.specs.Prelude.{◌≡◌, ◌+◌, ◌*◌, ◌/◌, ◌%◌, ◌<◌, length, set};

// Two bytes as one number.
pub fn joined(low: u8, high: u8) -> u16
    ensures { result ≡ low + 256 * high }
{
    u16::from_le_bytes([low, high])
}

// Lays the two bytes of a number down, the first of them at `at`.
pub fn lay_two(part: &mut [u8], at: usize, number: u16)
    requires { at + 1 < length part.old }
    ensures { part.new ≡ set (set part.old at (number % 256)) (at + 1) (number / 256) }
{
    let [low, high] = number.to_le_bytes();
    part[at] = low;
    part[at + 1] = high;
}
