// Beginning a call: a fresh store in its work room, and all of its budget left.
ghost use Rattle.std.specs.Prelude.{◌≡◌, false, length};
ghost use Rattle.store.specs.Room.{wrong_room, laid, fresh_store};
ghost use Rattle.loading.specs.Told.{Begun};

use crate::fresh::fresh;
use store::work::Work;

// What the call works with.
pub fn begin<'a>(room: &'a mut [u8], budget: u32) -> Work<'a>
    requires { wrong_room (length room.old) ≡ false }
    ensures same_room { result.room.ghost_name ≡ room.entry.ghost_name }
    ensures begun { Begun result }
    ensures room_after { result.room.now ≡ laid fresh_store room.old }
    ensures budget { result.budget ≡ budget }
{
    let places = fresh(room);
    Work {
        room,
        places,
        budget,
    }
}
