// Making a record: by a rule, as a record, or as a set of two merged.
// These stay on the room and its places, and not on `Work`: the store need not be good after any record is used or written, so what is
// promised of any record could not be promised of `Work`.
ghost use Rattle.std.specs.Prelude.{◌≡◌, ◌<◌};
ghost use Rattle.store.specs.Room.{store_in, places_of};
ghost use Rattle.store.specs.Making.{sequence_rule, rule, make};
ghost use Rattle.store.specs.Told.{Makes};
ghost use Rattle.store.specs.Good.{GoodStore};

use crate::interning::{intern, new_record};
use crate::merging::set_of_both;
use crate::room::{EMPTY_WORD_PLACE, NOTHING_PLACE};
use records::kind::Kind;
use refusals::refusal::Refusal;

// A rule gives a place, the record stays one, or two sets are merged.
#[derive(Clone, Copy)]
pub enum Ruled {
    Gives(usize),
    Stays,
    Merges,
}

// Making a record of the kind with this number and letter, with these children. The number may be any, as in the definition, and so it is no `Kind`.
pub fn make(
    room: &mut [u8],
    places: &mut usize,
    kind: u8,
    letter: u8,
    left: usize,
    right: usize,
) -> Result<usize, Refusal>
    requires good_store { GoodStore room.old places.old }
    requires children_stand { (left < places.old) × (right < places.old) }
    ensures { Makes room.old (make (places_of room.old) (store_in room.old places.old) kind letter left right) result room.new places.new }
{
    match rule(Kind::from(kind), left, right) {
        Ruled::Gives(place) => Ok(place),
        Ruled::Stays => {
            let r = new_record(room, *places, kind, letter, left, right);
            intern(room, places, r)
        }
        Ruled::Merges => set_of_both(room, places, kind, left, right),
    }
}

// The rules, by kind.
fn rule(kind: Kind, left: usize, right: usize) -> Ruled
    ensures { result ≡ rule kind left right }
{
    match kind {
        Kind::Nothing => Ruled::Stays,
        Kind::EmptyWord => Ruled::Stays,
        Kind::Letter => Ruled::Stays,
        Kind::Choice => Ruled::Merges,
        Kind::Sequence => sequence_rule(left, right),
        Kind::Repeat => Ruled::Stays,
        Kind::Unknown => Ruled::Stays,
    }
}

// Left nothing or right nothing gives nothing; left empty gives right; right empty gives left.
fn sequence_rule(left: usize, right: usize) -> Ruled
    ensures { result ≡ sequence_rule left right }
{
    if (left == NOTHING_PLACE) | (right == NOTHING_PLACE) {
        return Ruled::Gives(NOTHING_PLACE);
    }
    if left == EMPTY_WORD_PLACE {
        return Ruled::Gives(right);
    }
    if right == EMPTY_WORD_PLACE {
        return Ruled::Gives(left);
    }
    Ruled::Stays
}
