// Using or writing a record: its mark is made of its children's marks; it is used where it is found, and else written at the first free place.
// These stay on the room and its places, and not on `Work`: the store need not be good after any record is used or written, so what is
// promised of any record could not be promised of `Work`.
ghost use Rattle.std.specs.Prelude.{◌≡◌, ◌<◌};
ghost use Rattle.records.specs.Record.{child};
ghost use Rattle.cards.specs.Mark.{marked};
ghost use Rattle.store.specs.Room.{store_in, places_of};
ghost use Rattle.store.specs.Making.{new_record, intern};
ghost use Rattle.store.specs.Told.{Makes};
ghost use Rattle.store.specs.Good.{GoodStore};

use crate::finding::find;
use crate::writing::write;
use cards::examine::{as_mark, has_empty};
use records::kind::Kind;
use records::record::{RECORD, Record};
use refusals::refusal::Refusal;
use runs::item::Item;

// The record is used where it is found, and else written at the first free place. The places taken grow with it.
pub fn intern(room: &mut [u8], places: &mut usize, r: Record) -> Result<usize, Refusal>
    requires { GoodStore room.old places.old }
    ensures { Makes room.old (intern (places_of room.old) (store_in room.old places.old) r) result room.new places.new }
{
    if let Some(place) = find(room, *places, r) {
        return Ok(place);
    }
    let place = *places;
    if place < room.len() / RECORD {
        write(room, place, r);
        *places += 1;
        return Ok(place);
    }
    Err(Refusal::NoFreePlace)
}

// The record of this kind, letter and children, with its mark. The kind's number may be any, as in the definition.
pub fn new_record(
    room: &[u8],
    places: usize,
    kind: u8,
    letter: u8,
    left: usize,
    right: usize,
) -> Record
    requires good_store { GoodStore room.now places }
    requires children_stand { (left < places) × (right < places) }
    ensures { result ≡ new_record (store_in room.now places) kind letter left right }
{
    let mark = as_mark(has_empty(
        Kind::from(kind),
        marked_at(room, places, left),
        marked_at(room, places, right),
    ));
    Record {
        kind,
        letter,
        mark,
        fourth: 0,
        left: left as u16,
        right: right as u16,
    }
}

// What the mark of the record at a place says. `Work::marked` asks it, and the functions here that have no `Work`.
#[tactic(auto, using(crate::proofs::Laws::Room::child_in_room))]
pub fn marked_at(room: &[u8], places: usize, place: usize) -> bool
    requires good_store { GoodStore room.now places }
    requires place_lt_places { place < places }
    ensures { result ≡ marked (child (store_in room.now places) place) }
{
    let r = Record::read(room, place);
    r.mark == 1
}
