// The refusals of checking that need no work: the left card's 1 to 3, the right card's, the proof card's, then 5, 6 and 11.
ghost use Rattle.std.specs.Prelude.{◌≡◌};
ghost use Rattle.refusals.specs.Told.{standing_told};
ghost use Rattle.checking.specs.Outcome.{check_standing};

use crate::naming::all_named;
use cards::examine::{examine_pattern, examine_proof};
use pairs::room::wrong_pair_room;
use records::record::RECORD;
use refusals::refusal::Refusal;
use store::room::wrong_room;

// The first refusal, of two pattern cards, a proof card, a pair list and a work room of so many bytes. Each call has its own order, one line a
// refusal.
pub fn standing(
    left: &[u8],
    right: &[u8],
    proof: &[u8],
    list: &[u8],
    work: usize,
) -> Result<(), Refusal>
    ensures { standing_told result ≡ check_standing left.now right.now proof.now list.now work }
{
    examine_pattern(left)?;
    examine_pattern(right)?;
    examine_proof(proof)?;
    if wrong_room(work) {
        return Err(Refusal::WorkRoomSize);
    }
    if wrong_pair_room(list.len()) {
        return Err(Refusal::PairRoomSize);
    }
    if !all_named(list, proof.len() / RECORD) {
        return Err(Refusal::PairNamesNoRecord);
    }
    Ok(())
}
