// The pair room's size.
ghost use Rattle.std.specs.Prelude.{◌≡◌};
ghost use Rattle.pairs.specs.Room.{wrong_pair_room};

use crate::pair::PAIR;
use refusals::limits::MOST_PAIR_ROOM;

// Number 6, of a pair room or a pair list of so many bytes. Number 5 has bounds of its own: each is a sentence of document 01.
pub fn wrong_pair_room(size: usize) -> bool
    ensures { result ≡ wrong_pair_room size }
{
    (size == 0) | (MOST_PAIR_ROOM < size) | (size % PAIR != 0)
}
