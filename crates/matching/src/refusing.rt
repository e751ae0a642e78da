// The refusals of matching that need no work: the card's 1 to 3, then 4, then 5.
ghost use Rattle.std.specs.Prelude.{◌≡◌};
ghost use Rattle.refusals.specs.Told.{standing_told};
ghost use Rattle.matching.specs.Refusals.{standing_of};

use cards::examine::examine_pattern;
use refusals::limits::MOST_WORD;
use refusals::refusal::Refusal;
use store::room::wrong_room;

// The first refusal, of a card, a word of so many bytes and a work room of so many. Each call has its own order, one line a refusal.
pub fn standing(card: &[u8], word: usize, room: usize) -> Result<(), Refusal>
    ensures { standing_told result ≡ standing_of card.now word room }
{
    examine_pattern(card)?;
    if MOST_WORD < word {
        return Err(Refusal::LongWord);
    }
    if wrong_room(room) {
        return Err(Refusal::WorkRoomSize);
    }
    Ok(())
}
