// Looking at a pair that is reached: marks first, then the table, then room for it.
ghost use Rattle.std.specs.Prelude.{ℕ, ◌≡◌, ◌-◌, ◌<◌, ◌≤◌};
ghost use Rattle.store.specs.Room.{store_in};
ghost use Rattle.store.specs.Good.{GoodStore};
ghost use Rattle.store.specs.Work.{store_of};
ghost use Rattle.pairs.specs.Room.{pairs_of};
ghost use Rattle.searching.specs.Search.{look};
ghost use Rattle.searching.specs.Laws.Keeps.{Tabled};
ghost use Rattle.searching.specs.Told.{table_of, found_word, Goes, GoesIn};

use crate::going::End;
use crate::table::Table;
use pairs::pair::{PAIR, Pair};
use pairs::table::place;
use refusals::refusal::Refusal;
use store::interning::marked_at;
use store::work::Work;

// The pair of the places x and y, reached from the pair numbered `origin` by a letter, over the store of a room that is only read. The two places stay two parameters, as in the definition.
pub fn look_in(
    room: &[u8],
    places: usize,
    table: &mut Table<'_>,
    x: usize,
    y: usize,
    origin: usize,
    letter: u8,
) -> Result<(), End>
    requires good_store { GoodStore room.now places }
    requires stand { (x < places) × (y < places) }
    requires tabled { Tabled (pairs_of table.old.room.now) (store_in room.now places) (table_of table.old) }
    requires origin_placed { origin ≤ table.old.pairs - 1 }
    ensures same_room { table.new.room.ghost_name ≡ table.old.room.ghost_name }
    ensures goes { (left : ℕ) → GoesIn room.now places left table.old (look (pairs_of table.old.room.now) x y origin letter (found_word (table_of table.old) origin letter) (store_in room.now places) (table_of table.old) left) result table.new }
{
    let left_has = marked_at(room, places, x);
    let right_has = marked_at(room, places, y);
    if left_has != right_has {
        return Err(End::Different {
            origin,
            letter,
            left_has,
        });
    }
    if table.has(x as u16, y as u16) {
        return Ok(());
    }
    if table.room.len() / PAIR <= table.pairs {
        return Err(End::Refused(Refusal::NoPlaceForPair));
    }
    place(
        table.room,
        table.pairs,
        Pair {
            left: x as u16,
            right: y as u16,
            origin: origin as u16,
            letter,
        },
    );
    table.pairs += 1;
    Ok(())
}

// The same over the store that a call works with, and with the budget that it has left.
pub fn look(
    work: &Work<'_>,
    table: &mut Table<'_>,
    x: usize,
    y: usize,
    origin: usize,
    letter: u8,
) -> Result<(), End>
    requires stand { (x < work.now.places) × (y < work.now.places) }
    requires tabled { Tabled (pairs_of table.old.room.now) (store_of work.now) (table_of table.old) }
    requires origin_placed { origin ≤ table.old.pairs - 1 }
    ensures same_room { table.new.room.ghost_name ≡ table.old.room.ghost_name }
    ensures goes { Goes work.now table.old (look (pairs_of table.old.room.now) x y origin letter (found_word (table_of table.old) origin letter) (store_of work.now) (table_of table.old) work.now.budget) result work.now table.new }
{
    look_in(work.room, work.places, table, x, y, origin, letter)
}
