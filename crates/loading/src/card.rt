// Loading a card into a store.
ghost use Rattle.std.specs.Prelude.{◌≡◌, ◌<◌, length};
ghost use Rattle.records.specs.Record.{records};
ghost use Rattle.store.specs.Work.{store_of, space_of};
ghost use Rattle.loading.specs.Loading.{child_place, load};
ghost use Rattle.loading.specs.Told.{Loadable, Mapped, Loads};

use records::kind::{Kind, columns_of};
use records::record::{RECORD, Record};
use refusals::refusal::Refusal;
use runs::item::Item;
use store::work::Work;

// Makes the records of a card in order. The place of each goes into `map`.
pub fn load(work: &mut Work<'_>, card: &[u8], map: &mut [u16]) -> Result<(), Refusal>
    requires { Loadable card.now map.old }
    ensures same_room { work.new.room.ghost_name ≡ work.old.room.ghost_name }
    ensures loads { Loads work.old (load (space_of work.old) (store_of work.old) (records card.now)) result work.new }
    ensures mapped { Mapped (load (space_of work.old) (store_of work.old) (records card.now)) map.new }
{
    for at in 0..card.len() / RECORD {
        let r = Record::read(card, at);
        let kind = Kind::from(r.kind);
        let line = columns_of(kind);
        let left = child_place(line.left, map, r.left as usize);
        let right = child_place(line.right, map, r.right as usize);
        let place = work.make(kind, r.letter, left, right)?;
        map[at] = place as u16;
    }
    Ok(())
}

// The place where a field's child was loaded; a field that names no child stays 0.
fn child_place(child: bool, map: &[u16], field: usize) -> usize
    requires { field < length map.now }
    ensures { result ≡ child_place child map.now field }
{
    if child {
        return map[field] as usize;
    }
    0
}
