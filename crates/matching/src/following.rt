// Following a word from a place: one step for each byte.
ghost use Rattle.std.specs.Prelude.{◌<◌, ◌≡◌, IfOk};
ghost use Rattle.store.specs.Work.{store_of, space_of};
ghost use Rattle.derivative.specs.Derivative.{derive};
ghost use Rattle.derivative.specs.Told.{Comes};
ghost use Rattle.matching.specs.Fits.{follow};

use derivative::derive;
use refusals::refusal::Refusal;
use store::work::Work;

// One step: the derivative of a place by one byte.
pub fn step(work: &mut Work<'_>, place: usize, letter: u8) -> Result<usize, Refusal>
    requires { place < work.old.places }
    ensures same_room { work.new.room.ghost_name ≡ work.old.room.ghost_name }
    ensures comes { Comes work.old (derive (space_of work.old) letter place (store_of work.old) work.old.budget) result work.new }
    ensures inside { IfOk result (λ next. next < work.new.places) }
{
    derive(work, place, letter)
}

// A step for each byte of the word.
pub fn follow(work: &mut Work<'_>, place: usize, word: &[u8]) -> Result<usize, Refusal>
    requires { place < work.old.places }
    ensures same_room { work.new.room.ghost_name ≡ work.old.room.ghost_name }
    ensures comes { Comes work.old (follow (space_of work.old) word.now place (store_of work.old) work.old.budget) result work.new }
    ensures inside { IfOk result (λ last. last < work.new.places) }
{
    let mut here = place;
    for letter in word {
        here = step(work, here, *letter)?;
    }
    Ok(here)
}
