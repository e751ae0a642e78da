// The pair record: 8 bytes, read and laid down here and nowhere else.
ghost use Rattle.std.specs.Prelude.{◌≡◌, ◌+◌, ◌*◌, ◌≤◌, length};
ghost use Rattle.pairs.specs.Pair.{places_of_pair, pair_of, pair_record, bytes_of_pair};
ghost use Rattle.pairs.specs.Laws.Pair.{read_pair_back};

use runs::item::Item;
use runs::two_bytes::{joined, lay_two};

// The bytes of a pair record.
pub const PAIR: usize = 8;

#[derive(Clone, Copy)]
pub struct Pair {
    pub left: u16,
    pub right: u16,
    pub origin: u16,
    pub letter: u8,
}

// A pair is an item of 8 bytes: `Item` says what reading and laying one promise.
impl Item for Pair {
    ghost item_of = { pair_of };

    ghost bytes_of = { bytes_of_pair };

    ghost back = { read_pair_back };

    fn read(run: &[u8], at: usize) -> Pair {
        let start = PAIR * at;
        Pair {
            left: joined(run[start], run[start + 1]),
            right: joined(run[start + 2], run[start + 3]),
            origin: joined(run[start + 4], run[start + 5]),
            letter: run[start + 6],
        }
    }

    fn lay(self, part: &mut [u8]) {
        lay_two(part, 0, self.left);
        lay_two(part, 2, self.right);
        lay_two(part, 4, self.origin);
        part[6] = self.letter;
        part[7] = 0;
    }
}

// Two places as one number of 32 bits, by which pairs are compared at once (docs/PROMISES.md: "looked up as one number of 32 bits").
pub fn both(left: u16, right: u16) -> u32
    ensures { result ≡ left + 65536 * right }
{
    (left as u32) + 65536 * (right as u32)
}

// The two places of the pair numbered `at`, as one number.
pub fn places_at(run: &[u8], at: usize) -> u32
    requires { 8 * at + 8 ≤ length run.now }
    ensures { result ≡ places_of_pair (pair_record run.now at) }
{
    let start = PAIR * at;
    u32::from_le_bytes([run[start], run[start + 1], run[start + 2], run[start + 3]])
}
