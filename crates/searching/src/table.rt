// The table of pairs of a search: the pair room that it was lent, and the pairs placed at the start of it. The number stands beside the room, since
// the room is the caller's and nothing is allocated.
ghost use Rattle.std.specs.Prelude.{◌≡◌, ◌<◌, ◌≤◌, length};
ghost use Rattle.refusals.specs.Limits.{most_pair_room};
ghost use Rattle.pairs.specs.Pair.{pair_record, stands_in};
ghost use Rattle.pairs.specs.Room.{table_in};
ghost use Rattle.searching.specs.OneProof.{good_table_prop};
ghost use Rattle.searching.specs.Table.{GoodTable};

use pairs::pair::Pair;
use pairs::table::stands_in;
use runs::item::Item;

#[derive(Drop)]
pub struct Table<'a> {
    pub room: &'a mut [u8],
    pub pairs: usize,
    pub ghost good: { GoodTable room.now pairs } by { good_table_prop room.now pairs },
}

impl<'a> Table<'a> {
    // No pair is placed yet.
    pub fn empty(room: &'a mut [u8]) -> Self
        requires { length room.old ≤ most_pair_room }
        ensures same_room { result.room.ghost_name ≡ room.entry.ghost_name }
        ensures room_as_lent { result.room.now ≡ room.old }
        ensures no_pair { result.pairs ≡ 0 }
    {
        Table { room, pairs: 0 }
    }

    // The pair numbered n.
    pub fn pair(&self, n: usize) -> Pair
        requires { n < self.now.pairs }
        ensures { result ≡ pair_record self.now.room.now n }
    {
        Pair::read(self.room, n)
    }

    // Whether the two places stand in the table as a pair.
    pub fn has(&self, left: u16, right: u16) -> bool
        ensures { result ≡ stands_in (table_in self.now.room.now self.now.pairs) left right }
    {
        stands_in(self.room, self.pairs, left, right)
    }
}
