// A fresh store.
ghost use Rattle.std.specs.Prelude.{◌≡◌, ◌≤◌, length};
ghost use Rattle.store.specs.Room.{laid, fresh_store};

use records::kind::Kind;
use records::record::Record;
use runs::item::write_item;

// Place 0 is nothing, place 1 the empty word: two places are taken.
pub fn fresh(room: &mut [u8]) -> usize
    requires { 16 ≤ length room.old }
    ensures value { result ≡ 2 }
    ensures room_after { room.new ≡ laid fresh_store room.old }
{
    write_item(
        room,
        0,
        Record {
            kind: Kind::Nothing as u8,
            letter: 0,
            mark: 0,
            fourth: 0,
            left: 0,
            right: 0,
        },
    );
    write_item(
        room,
        1,
        Record {
            kind: Kind::EmptyWord as u8,
            letter: 0,
            mark: 1,
            fourth: 0,
            left: 0,
            right: 0,
        },
    );
    2
}
