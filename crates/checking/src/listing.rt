// The listed pairs, mapped to the places where the proof card's records were loaded. Of a listed pair only the first two fields are mapped
// and compared.
ghost use Rattle.checking.specs.Listed.{Named};
ghost use Rattle.checking.specs.OneProof.{named_prop};

use pairs::pair::{PAIR, Pair, both};
use runs::item::Item;

// The list, and the place of each record of the proof card. Every listed pair names two of those records.
#[derive(Clone, Copy)]
pub struct Listed<'a> {
    pub list: &'a [u8],
    pub map: &'a [u16],
    pub ghost named: { Named list.now map.now } by { named_prop list.now map.now },
}

impl Listed<'_> {
    ghost use Rattle.std.specs.Prelude.{◌≡◌, ◌<◌};
    ghost use Rattle.pairs.specs.Pair.{pair_at, stands_in};
    ghost use Rattle.pairs.specs.Room.{pairs_of};
    ghost use Rattle.checking.specs.Listed.{mapped_list};

    // Whether the two places stand in the mapped list as a pair. Two places are compared as one number. A table of pairs is looked through likewise
    // (`stands_in` of pairs), but its pairs are read as they stand, and not mapped.
    pub fn stands_listed(self, x: u16, y: u16) -> bool
        ensures { result ≡ stands_in (mapped_list self.entry.map.now self.entry.list.now) x y }
    {
        let wanted = both(x, y);
        for at in 0..self.list.len() / PAIR {
            let p = self.mapped_pair(at);
            if both(p.left, p.right) == wanted {
                return true;
            }
        }
        false
    }

    // The pair numbered n of the mapped list.
    pub fn mapped_pair(self, n: usize) -> Pair
        requires { n < pairs_of self.list.now }
        ensures { result ≡ pair_at (mapped_list self.entry.map.now self.entry.list.now) n }
    {
        let p = Pair::read(self.list, n);
        Pair {
            left: self.map[p.left as usize],
            right: self.map[p.right as usize],
            origin: p.origin,
            letter: p.letter,
        }
    }
}
