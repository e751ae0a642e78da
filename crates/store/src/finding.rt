// Finding an identical record.
// On the room and its places, and not on `Work`, as `intern` asks it: the store need not be good after any record.
ghost use Rattle.std.specs.Prelude.{◌≡◌, ℕ, ◌≤◌, max};
ghost use Rattle.cards.specs.Standing.{ChildField, Obeys};
ghost use Rattle.store.specs.Room.{store_in};
ghost use Rattle.store.specs.Making.{find};
ghost use Rattle.store.specs.Good.{GoodStore};

use records::kind::{Kind, columns_of};
use records::record::{Record, number, number_at};

// The place that holds the record. Records are compared as one number each, from the first place that can hold it on.
pub fn find(room: &[u8], places: usize, r: Record) -> Option<usize>
    requires { GoodStore room.now places }
    ensures { result ≡ find (store_in room.now places) r }
{
    let wanted = number(r);
    for at in above_children(r)..places {
        // A record is compared as one number, for speed.
        if number_at(room, at) == wanted {
            return Some(at);
        }
    }
    None
}

// The first place that can hold the record, where any can: it stands above the children that its kind has.
fn above_children(r: Record) -> usize
    ensures { (k : ℕ) → Obeys k r → (result ≤ k) × Obeys result r }
{
    let line = columns_of(Kind::from(r.kind));
    higher(
        above_child(line.left, r.left),
        above_child(line.right, r.right),
    )
}

// The first place at which a field is right, where there is one: above the child that it names, and any place where it names none.
fn above_child(child: bool, field: u16) -> usize
    ensures { (k : ℕ) → ChildField child k field → (result ≤ k) × ChildField child result field }
{
    if child {
        return field as usize + 1;
    }
    0
}

// The higher of two places.
fn higher(one: usize, other: usize) -> usize
    ensures { result ≡ max one other }
{
    one.max(other)
}
