// Deriving two places by one letter: the left one, then the right one in the store that the first leaves.
ghost use Rattle.std.specs.Prelude.{◌≡◌, ◌<◌, ◌≤◌, IfOk};
ghost use Rattle.store.specs.Work.{store_of, space_of};
ghost use Rattle.derivative.specs.Both.{derive_both};
ghost use Rattle.derivative.specs.Told.{BothCome};

use crate::derive;
use refusals::refusal::Refusal;
use store::work::Work;

// Both derived places. Shaped like `open_both` of pairs, with another call in its middle and another promise: a function lent the call would
// have a longer contract than both. The two places stay two parameters, as in the definition.
pub fn derive_both(
    work: &mut Work<'_>,
    x: usize,
    y: usize,
    letter: u8,
) -> Result<(usize, usize), Refusal>
    requires { (x < work.old.places) × (y < work.old.places) }
    ensures same_room { work.new.room.ghost_name ≡ work.old.room.ghost_name }
    ensures comes { BothCome work.old (derive_both (space_of work.old) letter x y (store_of work.old) work.old.budget) result work.new }
    ensures inside { IfOk result (λ next. (next.0 < work.new.places) × (next.1 < work.new.places)) }
    ensures grows { work.old.places ≤ work.new.places }
{
    let next_x = derive(work, x, letter)?;
    let next_y = derive(work, y, letter)?;
    Ok((next_x, next_y))
}
