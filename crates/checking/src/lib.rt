// Checking: does a list of pairs prove that two cards' patterns allow the same words? `check` takes any bytes and asks nothing of its caller.
// The definitions that its promise cites stand in specs/; specs/Lib.antt lists them.
#![tactic(auto)]

ghost use Rattle.checking.specs.Promise.{Checks};

use crate::opened::check_cards;
use crate::refusing::standing;
use crate::telling::answer;
use answers::Checked;
use loading::beginning::begin;

pub mod checking;
pub mod failing;
pub mod listing;
pub mod naming;
pub mod opened;
pub mod refusing;
pub mod telling;

// Whether the list, of pairs of the proof card's records, proves the two pattern cards' languages equal.
pub fn check(
    left: &[u8],
    right: &[u8],
    proof: &[u8],
    list: &[u8],
    room: &mut [u8],
    budget: u32,
) -> Checked
    ensures { Checks left.now right.now proof.now list.now room.old budget result room.new }
{
    if let Err(refusal) = standing(left, right, proof, list, room.len()) {
        return Checked::Refused(refusal.number(), 0, 0);
    }
    let mut work = begin(room, budget);
    let checked = check_cards(&mut work, left, right, proof, list);
    let visits = budget - work.budget;
    answer(checked, work.places, visits)
}
