// The fixed search: pairs in table order, for each the letters ascending, for each letter the left derived, then the right.
// That the table is one over the store is asked in words (`Tabled`): it is a fact of both, and no type of one of them can say it.
ghost use Rattle.std.specs.Prelude.{◌≡◌, ◌<◌, ◌≤◌};
ghost use Rattle.store.specs.Work.{store_of, space_of};
ghost use Rattle.pairs.specs.Room.{pairs_of};
ghost use Rattle.searching.specs.Search.{by_letter, by_letters, take_pairs, search};
ghost use Rattle.searching.specs.Laws.Keeps.{Tabled};
ghost use Rattle.searching.specs.Told.{OrderedPairs, table_of, Goes, Ends};

use crate::going::End;
use crate::looking::look;
use crate::table::Table;
use derivative::both::derive_both;
use store::work::Work;

// The search from the opening pair, over an empty table: the table is closed, or the search is at an end before. The two places stay two parameters, as in the definition.
pub fn search(
    work: &mut Work<'_>,
    table: &mut Table<'_>,
    letters: &[u8],
    x: usize,
    y: usize,
) -> Result<(), End>
    requires stand { (x < work.old.places) × (y < work.old.places) }
    requires empty { table.old.pairs ≡ 0 }
    ensures same_room { work.new.room.ghost_name ≡ work.old.room.ghost_name }
    ensures same_pair_room { table.new.room.ghost_name ≡ table.old.room.ghost_name }
    ensures ends { Ends work.old table.old (search (space_of work.old) (pairs_of table.old.room.now) letters.now x y (store_of work.old) work.old.budget) result work.new table.new }
    ensures spent { work.new.budget ≤ work.old.budget }
    ensures ordered { OrderedPairs table.new.room.now table.new.pairs }
{
    look(work, table, x, y, 0, 0)?;
    take_pairs(work, table, letters)
}

// The pairs in table order, until every placed pair has been taken.
fn take_pairs(work: &mut Work<'_>, table: &mut Table<'_>, letters: &[u8]) -> Result<(), End>
    requires { Tabled (pairs_of table.old.room.now) (store_of work.old) (table_of table.old) }
    ensures same_room { work.new.room.ghost_name ≡ work.old.room.ghost_name }
    ensures same_pair_room { table.new.room.ghost_name ≡ table.old.room.ghost_name }
    ensures ends { Ends work.old table.old (take_pairs (pairs_of table.old.room.now) (space_of work.old) (pairs_of table.old.room.now) letters.now 0 (store_of work.old) (table_of table.old) work.old.budget) result work.new table.new }
{
    let mut n = 0;
    // counted by hand: the table grows while its pairs are taken
    while n < table.pairs {
        by_letters(work, table, n, letters)?;
        n += 1;
    }
    Ok(())
}

// The pair numbered n by each letter in turn.
fn by_letters(
    work: &mut Work<'_>,
    table: &mut Table<'_>,
    n: usize,
    letters: &[u8],
) -> Result<(), End>
    requires tabled { Tabled (pairs_of table.old.room.now) (store_of work.old) (table_of table.old) }
    requires placed { n < table.old.pairs }
    ensures same_room { work.new.room.ghost_name ≡ work.old.room.ghost_name }
    ensures same_pair_room { table.new.room.ghost_name ≡ table.old.room.ghost_name }
    ensures goes { Goes work.old table.old (by_letters (space_of work.old) (pairs_of table.old.room.now) n letters.now (store_of work.old) (table_of table.old) work.old.budget) result work.new table.new }
{
    for letter in letters {
        by_letter(work, table, n, *letter)?;
    }
    Ok(())
}

// The pair numbered n by one letter.
fn by_letter(work: &mut Work<'_>, table: &mut Table<'_>, n: usize, letter: u8) -> Result<(), End>
    requires tabled { Tabled (pairs_of table.old.room.now) (store_of work.old) (table_of table.old) }
    requires placed { n < table.old.pairs }
    ensures same_room { work.new.room.ghost_name ≡ work.old.room.ghost_name }
    ensures same_pair_room { table.new.room.ghost_name ≡ table.old.room.ghost_name }
    ensures goes { Goes work.old table.old (by_letter (space_of work.old) (pairs_of table.old.room.now) n letter (store_of work.old) (table_of table.old) work.old.budget) result work.new table.new }
{
    let p = table.pair(n);
    let (x, y) = derive_both(work, p.left as usize, p.right as usize, letter)?;
    look(work, table, x, y, n, letter)
}
