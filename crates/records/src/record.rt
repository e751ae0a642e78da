// The record: 8 bytes, read and laid down here and nowhere else.
ghost use Rattle.std.specs.Prelude.{◌≡◌, ◌+◌, ◌*◌, ◌≤◌, length};
ghost use Rattle.records.specs.Record.{record_of, record_at, bytes_of, number_of};
ghost use Rattle.records.specs.Laws.Record.{read_back};

use runs::item::Item;
use runs::two_bytes::{joined, lay_two};

// The bytes of a record.
pub const RECORD: usize = 8;

#[derive(Clone, Copy)]
pub struct Record {
    // a number, and no `Kind`: a card's byte may be any, and one that names no kind is told from another
    pub kind: u8,
    pub letter: u8,
    pub mark: u8,
    pub fourth: u8,
    pub left: u16,
    pub right: u16,
}

// A record is an item of 8 bytes: `Item` says what reading and laying one promise.
impl Item for Record {
    ghost item_of = { record_of };

    ghost bytes_of = { bytes_of };

    ghost back = { read_back };

    fn read(run: &[u8], at: usize) -> Record {
        let start = RECORD * at;
        Record {
            kind: run[start],
            letter: run[start + 1],
            mark: run[start + 2],
            fourth: run[start + 3],
            left: joined(run[start + 4], run[start + 5]),
            right: joined(run[start + 6], run[start + 7]),
        }
    }

    fn lay(self, part: &mut [u8]) {
        part[0] = self.kind;
        part[1] = self.letter;
        part[2] = self.mark;
        part[3] = self.fourth;
        lay_two(part, 4, self.left);
        lay_two(part, 6, self.right);
    }
}

// The 8 bytes of a record as one number, by which records are compared at once (docs/SPEED.md), and not field by field.
pub fn number(r: Record) -> u64
    ensures { result ≡ number_of r }
{
    let [left, left_high] = r.left.to_le_bytes();
    let [right, right_high] = r.right.to_le_bytes();
    u64::from_le_bytes([
        r.kind, r.letter, r.mark, r.fourth, left, left_high, right, right_high,
    ])
}

// The 8 bytes of the record numbered `at`, as one number.
pub fn number_at(run: &[u8], at: usize) -> u64
    requires { 8 * at + 8 ≤ length run.now }
    ensures { result ≡ number_of (record_at run.now at) }
{
    let start = RECORD * at;
    u64::from_le_bytes([
        run[start],
        run[start + 1],
        run[start + 2],
        run[start + 3],
        run[start + 4],
        run[start + 5],
        run[start + 6],
        run[start + 7],
    ])
}
