// A part of some bytes, whatever its ends are.
ghost use Rattle.std.specs.Prelude.{◌≡◌, [], ◌≤◌, length, slice_range};

// The part between two ends, or none where the bytes have no such part.
pub fn part(bytes: &[u8], from: usize, to: usize) -> &[u8]
    ensures inside { from ≤ to → to ≤ length bytes.now → result.now ≡ slice_range bytes.now from to }
    ensures outside { ¬ (from ≤ to × to ≤ length bytes.now) → result.now ≡ [] }
{
    bytes.get(from..to).unwrap_or(&[])
}
