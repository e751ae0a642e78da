// Making a set: two of its kind, merged by rising place, each member once, and built from the last member backward.
// On the room and its places, and not on `Work`, as `make` asks it: the store need not be good after any record. The kind is its number, as in the
// definitions, and as it stands in the records that it is compared with.
ghost use Rattle.std.specs.Prelude.{◌≡◌, cond, ◌<◌, eqb, min};
ghost use Rattle.store.specs.Room.{store_in, places_of};
ghost use Rattle.store.specs.Making.{placed, put_before, set_of_both};
ghost use Rattle.store.specs.Told.{side, Makes};
ghost use Rattle.store.specs.Good.{SetKind, GoodStore};

use crate::interning::{intern, new_record};
use crate::room::NOTHING_PLACE;
use records::record::Record;
use refusals::refusal::Refusal;
use runs::item::Item;

// A set whose record was read: its first member and the place of the set behind that.
#[derive(Clone, Copy)]
pub struct Side {
    pub first: usize,
    pub behind: usize,
}

// Making the set of both places' members. Where one is used up, or both are one, the other stands already. Places are handed on, and no
// record that was read, so that a level of these calls takes little of the stack.
pub fn set_of_both(
    room: &mut [u8],
    places: &mut usize,
    kind: u8,
    left: usize,
    right: usize,
) -> Result<usize, Refusal>
    requires good_store { GoodStore room.old places.old }
    requires sets_stand { (left < places.old) × (right < places.old) }
    requires set_kind { SetKind kind }
    ensures { Makes room.old (set_of_both (places_of room.old) kind (store_in room.old places.old) left right) result room.new places.new }
{
    if (left == NOTHING_PLACE) | (left == right) {
        return Ok(right);
    }
    if right == NOTHING_PLACE {
        return Ok(left);
    }
    let one = read_side(room, *places, kind, left);
    let other = read_side(room, *places, kind, right);
    let member = lower(one.first, other.first);
    let rest = set_of_both(
        room,
        places,
        kind,
        past(left, one, member),
        past(right, other, member),
    )?;
    put_before(room, places, kind, member, rest)
}

// The set at a place.
#[tactic(auto, using(crate::proofs::Laws::Room::child_in_room))]
fn read_side(room: &[u8], places: usize, kind: u8, place: usize) -> Side
    requires good_store { GoodStore room.now places }
    requires place_lt_places { place < places }
    ensures { result ≡ side kind (store_in room.now places) place }
{
    let r = Record::read(room, place);
    if r.kind == kind {
        return Side {
            first: r.left as usize,
            behind: r.right as usize,
        };
    }
    Side {
        first: place,
        behind: NOTHING_PLACE,
    }
}

// What is left of the set at a place behind a member: the set behind its first where that is the member, and else the set as it stands.
fn past(place: usize, set: Side, member: usize) -> usize
    ensures { result ≡ cond (eqb set.first member) set.behind place }
{
    if set.first == member {
        return set.behind;
    }
    place
}

// A member before the set of the later ones: where that is nothing the member is the set, and else the record of both is used or written.
fn put_before(
    room: &mut [u8],
    places: &mut usize,
    kind: u8,
    member: usize,
    rest: usize,
) -> Result<usize, Refusal>
    requires good_store { GoodStore room.old places.old }
    requires both_stand { (member < places.old) × (rest < places.old) }
    ensures { Makes room.old (put_before (places_of room.old) kind member (placed rest (store_in room.old places.old))) result room.new places.new }
{
    if rest == NOTHING_PLACE {
        return Ok(member);
    }
    let r = new_record(room, *places, kind, 0, member, rest);
    intern(room, places, r)
}

// The lower of two places.
fn lower(one: usize, other: usize) -> usize
    ensures { result ≡ min one other }
{
    one.min(other)
}
