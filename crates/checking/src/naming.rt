// Number 11: whether each listed pair names two records of the proof card.
ghost use Rattle.std.specs.Prelude.{◌&&◌, ◌≡◌, ◌+◌, ◌*◌, ◌≤◌, ltb, length};
ghost use Rattle.pairs.specs.Pair.{pair_record};
ghost use Rattle.pairs.specs.Room.{listed_pairs};
ghost use Rattle.checking.specs.Outcome.{all_named};

use pairs::pair::{PAIR, Pair};
use runs::item::Item;

// Of a proof card of so many records.
pub fn all_named(list: &[u8], count: usize) -> bool
    ensures { result ≡ all_named count (listed_pairs list.now) }
{
    for at in 0..list.len() / PAIR {
        if !named(list, at, count) {
            return false;
        }
    }
    true
}

// The pair numbered `at`.
fn named(list: &[u8], at: usize, count: usize) -> bool
    requires { 8 * at + 8 ≤ length list.now }
    ensures { result ≡ (ltb (pair_record list.now at).left count && ltb (pair_record list.now at).right count) }
{
    let p = Pair::read(list, at);
    ((p.left as usize) < count) & ((p.right as usize) < count)
}
