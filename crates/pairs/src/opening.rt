// Opening two pattern cards: the left card is loaded, then the right, into a fresh store of a room or into the store that a call works with, which is fresh
// where it begins.
ghost use Rattle.std.specs.Prelude.{◌≡◌, ◌<◌, IfOk, length};
ghost use Rattle.records.specs.Record.{records};
ghost use Rattle.store.specs.Room.{places_of, laid};
ghost use Rattle.store.specs.Work.{store_of, space_of};
ghost use Rattle.loading.specs.Loading.{load};
ghost use Rattle.pairs.specs.Opening.{left_opened, open_both, after_opening};
ghost use Rattle.pairs.specs.Laws.Told.{CanOpenRoom};
ghost use Rattle.pairs.specs.Told.{GoodCards, Opens, opening_answer};

use loading::beginning::begin;
use loading::entering::enter;
use refusals::refusal::Refusal;
use store::work::Work;

// The places of the two roots in a fresh store of the room, and how many places are then taken.
pub fn open_both(
    left: &[u8],
    right: &[u8],
    room: &mut [u8],
) -> (Result<(usize, usize), Refusal>, usize)
    requires { CanOpenRoom left.now right.now room.old }
    ensures answers { result.0 ≡ opening_answer (open_both (places_of room.old) (records left.now) (records right.now)) }
    ensures taken { result.1 ≡ length (after_opening (open_both (places_of room.old) (records left.now) (records right.now))) }
    ensures leaves { room.new ≡ laid (after_opening (open_both (places_of room.old) (records left.now) (records right.now))) room.old }
{
    let mut work = begin(room, 0);
    let opened = open_in(&mut work, left, right);
    (opened, work.places)
}

// The places of the two roots, which are the opening pair. Shaped like `derive_both` of derivative; it says why they stay two.
pub fn open_in(work: &mut Work<'_>, left: &[u8], right: &[u8]) -> Result<(usize, usize), Refusal>
    requires { GoodCards left.now right.now }
    ensures same_room { work.new.room.ghost_name ≡ work.old.room.ghost_name }
    ensures opens { Opens work.old (left_opened (space_of work.old) (records right.now) (load (space_of work.old) (store_of work.old) (records left.now))) result work.new }
    ensures inside { IfOk result (λ p. (p.0 < work.new.places) × (p.1 < work.new.places)) }
{
    let x = enter(work, left)?;
    let y = enter(work, right)?;
    Ok((x, y))
}
