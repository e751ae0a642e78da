// The table of pairs in a lent room: looking a pair up, and placing a new one.
ghost use Rattle.std.specs.Prelude.{◌≡◌, [], ◌∷◌, ◌++◌, ◌+◌, ◌*◌, ◌≤◌, length};
ghost use Rattle.pairs.specs.Pair.{stands_in};
ghost use Rattle.pairs.specs.Room.{table_in, laid_pairs, TableStands};
ghost use Rattle.refusals.specs.Limits.{most_pairs};

use crate::pair::{Pair, both, places_at};
use runs::item::write_item;

// Whether the two places stand in the table as a pair. Two places are compared as one number.
pub fn stands_in(room: &[u8], pairs: usize, left: u16, right: u16) -> bool
    requires { 8 * pairs ≤ length room.now }
    ensures { result ≡ stands_in (table_in room.now pairs) left right }
{
    let wanted = both(left, right);
    for at in 0..pairs {
        if places_at(room, at) == wanted {
            return true;
        }
    }
    false
}

// Writes a pair behind the table.
pub fn place(room: &mut [u8], pairs: usize, p: Pair)
    requires table_stands { TableStands room.old pairs }
    requires pairs_le_most_pairs { pairs ≤ most_pairs }
    requires pairs_in_bounds { 8 * pairs + 8 ≤ length room.old }
    ensures { room.new ≡ laid_pairs (table_in room.old pairs ++ p ∷ []) room.old }
{
    write_item(room, pairs, p);
}
