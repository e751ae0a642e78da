// What a call works with: the work room that it was lent, the places taken at the start of it, and the visits left of its budget. The store
// that stands in the room is good. The room is the caller's and has its places at its start, with their number beside it: no heap.
// That a place is taken is asked in words wherever a place is given: it is a fact of the place and of this, and a type of one of them cannot say it.
ghost use Rattle.store.specs.Good.{GoodStore};
ghost use Rattle.store.specs.OneProof.{good_store_prop};

use crate::interning::marked_at;
use crate::making::make;
use records::kind::Kind;
use refusals::refusal::Refusal;

#[derive(Drop)]
pub struct Work<'a> {
    pub room: &'a mut [u8],
    pub places: usize,
    pub budget: u32,
    pub ghost good: { GoodStore room.now places } by { good_store_prop room.now places },
}

impl Work<'_> {
    ghost use Rattle.std.specs.Prelude.{◌≡◌, ◌<◌, ◌≤◌, IfOk};
    ghost use Rattle.records.specs.Record.{child};
    ghost use Rattle.records.specs.Number.{number};
    ghost use Rattle.cards.specs.Mark.{marked};
    ghost use Rattle.store.specs.Making.{make};
    ghost use Rattle.store.specs.Told.{Makes};
    ghost use Rattle.store.specs.Good.{Makeable};
    ghost use Rattle.store.specs.Work.{store_of, space_of};

    // What the mark of the record at a place says.
    pub fn marked(&self, place: usize) -> bool
        requires { place < self.now.places }
        ensures { result ≡ marked (child (store_of self.now) place) }
    {
        marked_at(self.room, self.places, place)
    }

    // Makes a record that may stand in the store, so that the store is good again.
    pub fn make(
        &mut self,
        kind: Kind,
        letter: u8,
        left: usize,
        right: usize,
    ) -> Result<usize, Refusal>
        requires { Makeable (store_of self.old) (number kind) letter left right }
        ensures same_room { self.new.room.ghost_name ≡ self.old.room.ghost_name }
        ensures makes { Makes self.old.room.now (make (space_of self.old) (store_of self.old) (number kind) letter left right) result self.new.room.now self.new.places }
        ensures unspent { self.new.budget ≡ self.old.budget }
        ensures inside { IfOk result (λ place. place < self.new.places) }
        ensures grows { self.old.places ≤ self.new.places }
    {
        make(
            self.room,
            &mut self.places,
            kind.number(),
            letter,
            left,
            right,
        )
    }
}
