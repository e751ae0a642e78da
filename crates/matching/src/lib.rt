// Matching: does a word fit a card's pattern? `fits` takes any bytes and asks nothing of its caller.
// The definitions that its promise cites stand in specs/; specs/Lib.antt lists them.
#![tactic(auto)]

ghost use Rattle.std.specs.Prelude.{◌≡◌, ◌≤◌};
ghost use Rattle.refusals.specs.Order.{Good};
ghost use Rattle.records.specs.Record.{records};
ghost use Rattle.cards.specs.Examine.{pattern_card};
ghost use Rattle.store.specs.Work.{store_of, space_of};
ghost use Rattle.loading.specs.Loading.{load};
ghost use Rattle.matching.specs.Fits.{follow_loaded};
ghost use Rattle.matching.specs.Promise.{Fits};
ghost use Rattle.matching.specs.Told.{Judges};

use crate::following::follow;
use crate::refusing::standing;
use answers::Match;
use loading::beginning::begin;
use loading::entering::enter;
use refusals::refusal::Refusal;
use store::work::Work;

pub mod following;
pub mod refusing;

// Whether the word is in the language of the card's pattern.
pub fn fits(card: &[u8], word: &[u8], room: &mut [u8], budget: u32) -> Match
    ensures { Fits card.now word.now room.old budget result room.new }
{
    if let Err(refusal) = standing(card, word.len(), room.len()) {
        return Match::Refused(refusal.number(), 0, 0);
    }
    let mut work = begin(room, budget);
    let judged = judge(&mut work, card, word);
    let visits = budget - work.budget;
    match judged {
        Ok(true) => Match::Yes(work.places, visits),
        Ok(false) => Match::No(work.places, visits),
        Err(refusal) => Match::Refused(refusal.number(), work.places, visits),
    }
}

// Enters the card, follows the word from its root, and reads the last mark.
fn judge(work: &mut Work<'_>, card: &[u8], word: &[u8]) -> Result<bool, Refusal>
    requires { pattern_card card.now ≡ Good }
    ensures same_room { work.new.room.ghost_name ≡ work.old.room.ghost_name }
    ensures spent { work.new.budget ≤ work.old.budget }
    ensures judges { Judges work.old (follow_loaded (space_of work.old) word.now work.old.budget (load (space_of work.old) (store_of work.old) (records card.now))) result work.new }
{
    let root = enter(work, card)?;
    let last = follow(work, root, word)?;
    Ok(work.marked(last))
}
