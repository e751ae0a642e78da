// Writing a new record at the first free place.
// These stay on the room and its places, and not on `Work`: the store need not be good after any record is used or written, so what is
// promised of any record could not be promised of `Work`.
ghost use Rattle.std.specs.Prelude.{◌≡◌, [], ◌∷◌, ◌++◌, ◌+◌, ◌*◌, ◌≤◌, length};
ghost use Rattle.store.specs.Room.{store_in, laid};
ghost use Rattle.store.specs.Good.{GoodStore};

use records::record::Record;
use runs::item::write_item;

// Writes a record at the first free place.
pub fn write(room: &mut [u8], places: usize, r: Record)
    requires good_store { GoodStore room.old places }
    requires places_in_bounds { 8 * places + 8 ≤ length room.old }
    ensures { room.new ≡ laid (store_in room.old places ++ r ∷ []) room.old }
{
    write_item(room, places, r);
}
