// The work room: its size, and the two places that every store begins with.
ghost use Rattle.std.specs.Prelude.{◌≡◌};
ghost use Rattle.store.specs.Room.{wrong_room};

use records::record::RECORD;
use refusals::limits::{LEAST_ROOM, MOST_ROOM};

// The place of nothing, and that of the empty word.
pub const NOTHING_PLACE: usize = 0;

pub const EMPTY_WORD_PLACE: usize = 1;

// Number 5, of a work room of so many bytes.
pub fn wrong_room(size: usize) -> bool
    ensures { result ≡ wrong_room size }
{
    (size < LEAST_ROOM) | (MOST_ROOM < size) | (size % RECORD != 0)
}
