// An item of 8 bytes, as records and pairs are: read and laid down by its own code, and written into a run of such items by one code for all.
ghost use Rattle.std.specs.Prelude.{◌≡◌, ℕ, List, ◌++◌, ◌+◌, ◌*◌, ◌≤◌, length, take, drop};
ghost use Rattle.runs.specs.Runs.{item_at};

// The bytes of an item.
pub const ITEM: usize = 8;

pub trait Item {
    // The item whose bytes start a list, and the bytes of an item.
    ghost item_of: { List ℕ → Self };

    ghost bytes_of: { Self → List ℕ };

    // The item numbered `at` of a run of such items. That it stands in the run is asked in words: a run is any slice, of a card or a room.
    fn read(run: &[u8], at: usize) -> Self
        requires { 8 * at + 8 ≤ length run.now }
        ensures { result ≡ item_at 8 item_of run.now at };

    // Lays the item down at the start of a part of a room.
    fn lay(self, part: &mut [u8])
        requires { 8 ≤ length part.old }
        ensures { part.new ≡ bytes_of self ++ drop 8 part.old };

    // An item laid down and read back is the same item, whatever stands behind it.
    ghost back: { (item : Self) (rest : List ℕ) → item_of (bytes_of item ++ rest) ≡ item };
}

// Writes an item behind so many: every other byte of the room stays.
pub fn write_item<T: Item>(room: &mut [u8], count: usize, item: T)
    requires { 8 * count + 8 ≤ length room.old }
    ensures written { room.new ≡ take (8 * count) room.old ++ (T.bytes_of item ++ drop (8 * count + 8) room.old) }
    ensures reads_back { item_at 8 T.item_of room.new count ≡ item }
{
    item.lay(&mut room[ITEM * count..]);
}
