// Entering a pattern card into a store: its records loaded, and the place of its root.
ghost use Rattle.std.specs.Prelude.{◌≡◌, ◌<◌, ◌≤◌, IfOk};
ghost use Rattle.refusals.specs.Order.{Good};
ghost use Rattle.records.specs.Record.{records};
ghost use Rattle.cards.specs.Examine.{pattern_card};
ghost use Rattle.store.specs.Work.{store_of, space_of};
ghost use Rattle.loading.specs.Loading.{load};
ghost use Rattle.loading.specs.Told.{Enters};

use crate::card::load;
use records::record::RECORD;
use refusals::limits::MOST_PATTERN_RECORDS;
use refusals::refusal::Refusal;
use store::work::Work;

// The place of the card's root.
pub fn enter(work: &mut Work<'_>, card: &[u8]) -> Result<usize, Refusal>
    requires { pattern_card card.now ≡ Good }
    ensures same_room { work.new.room.ghost_name ≡ work.old.room.ghost_name }
    ensures enters { Enters work.old (load (space_of work.old) (store_of work.old) (records card.now)) result work.new }
    ensures inside { IfOk result (λ place. place < work.new.places) }
    ensures grows { work.old.places ≤ work.new.places }
{
    // an array, long enough for every card: no heap
    let mut map = [0u16; MOST_PATTERN_RECORDS];
    load(work, card, &mut map)?;
    Ok(map[card.len() / RECORD - 1] as usize)
}
