// The refusals of comparing that need no work: the left card's 1 to 3, the right card's, then 5, then 6.
ghost use Rattle.std.specs.Prelude.{◌≡◌};
ghost use Rattle.refusals.specs.Told.{standing_told};
ghost use Rattle.comparing.specs.Compare.{compare_standing};

use cards::examine::examine_pattern;
use pairs::room::wrong_pair_room;
use refusals::refusal::Refusal;
use store::room::wrong_room;

// The first refusal, of two cards, a work room and a pair room of so many bytes. Each call has its own order, one line a refusal.
pub fn standing(left: &[u8], right: &[u8], work: usize, pairs: usize) -> Result<(), Refusal>
    ensures { standing_told result ≡ compare_standing left.now right.now work pairs }
{
    examine_pattern(left)?;
    examine_pattern(right)?;
    if wrong_room(work) {
        return Err(Refusal::WorkRoomSize);
    }
    if wrong_pair_room(pairs) {
        return Err(Refusal::PairRoomSize);
    }
    Ok(())
}
