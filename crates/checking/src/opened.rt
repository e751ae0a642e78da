// Behind the two pattern cards the proof card is loaded, and the list is checked with its records' places.
ghost use Rattle.std.specs.Prelude.{◌<◌, ◌≡◌, false, length};
ghost use Rattle.records.specs.Record.{records};
ghost use Rattle.store.specs.Room.{wrong_room};
ghost use Rattle.store.specs.Work.{store_of, space_of};
ghost use Rattle.loading.specs.Loading.{load};
ghost use Rattle.pairs.specs.Room.{listed_pairs};
ghost use Rattle.pairs.specs.Tried.{tried};
ghost use Rattle.pairs.specs.Opening.{open_both};
ghost use Rattle.pairs.specs.Told.{CanOpen};
ghost use Rattle.checking.specs.Listed.{GoodProof};
ghost use Rattle.checking.specs.Outcome.{check_loaded, check_opened};
ghost use Rattle.checking.specs.Told.{Tells};

use crate::checking::check_list;
use crate::failing::Failure;
use crate::listing::Listed;
use loading::card::load;
use pairs::letters::letters_tried;
use pairs::opening::open_in;
use refusals::limits::{MOST_LETTERS, MOST_PROOF_RECORDS};
use refusals::refusal::Refusal;
use store::work::Work;

// The two pattern cards are opened, and the list is checked by the letters of either.
pub fn check_cards(
    work: &mut Work<'_>,
    left: &[u8],
    right: &[u8],
    proof: &[u8],
    list: &[u8],
) -> Result<(), Failure>
    requires can_open { CanOpen left.now right.now work.old }
    requires room_legal { wrong_room (length work.old.room.now) ≡ false }
    requires good_proof { GoodProof proof.now list.now }
    ensures same_room { work.new.room.ghost_name ≡ work.old.room.ghost_name }
    ensures tells { Tells work.old (check_opened (space_of work.old) (tried left.now right.now) (records proof.now) (listed_pairs list.now) work.old.budget (open_both (space_of work.old) (records left.now) (records right.now))) result work.new }
{
    // an array, long enough for every letter: no heap
    let mut space = [0u8; MOST_LETTERS];
    let letters = letters_tried(left, right, &mut space);
    let (x, y) = open_in(work, left, right)?;
    check_opened(work, proof, list, letters, x, y)
}

// The opening pair is of places x and y.
pub fn check_opened(
    work: &mut Work<'_>,
    proof: &[u8],
    list: &[u8],
    letters: &[u8],
    x: usize,
    y: usize,
) -> Result<(), Failure>
    requires good_proof { GoodProof proof.now list.now }
    requires stand { (x < work.old.places) × (y < work.old.places) }
    ensures same_room { work.new.room.ghost_name ≡ work.old.room.ghost_name }
    ensures tells { Tells work.old (check_loaded (space_of work.old) letters.now (listed_pairs list.now) work.old.budget x y (load (space_of work.old) (store_of work.old) (records proof.now))) result work.new }
{
    // an array, long enough for every card: no heap
    let mut map = [0u16; MOST_PROOF_RECORDS];
    // written out and no `?`: the one refusal of loading, in a place of its own
    if let Err(_) = load(work, proof, &mut map) {
        return Err(Failure::Refused(Refusal::NoFreePlace));
    }
    let listed = Listed { list, map: &map };
    check_list(work, listed, letters, x, y)
}
