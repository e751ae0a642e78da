// Comparing: do two cards' patterns allow the same words? `compare` takes any bytes and asks nothing of its caller.
// The definitions that its promise cites stand in specs/; specs/Lib.antt lists them.
#![tactic(auto)]

ghost use Rattle.std.specs.Prelude.{◌≡◌, ◌-◌, ◌<◌, ◌≤◌, length};
ghost use Rattle.store.specs.Work.{store_of, space_of};
ghost use Rattle.pairs.specs.Room.{pairs_of};
ghost use Rattle.searching.specs.Search.{search};
ghost use Rattle.comparing.specs.Compare.{of_search};
ghost use Rattle.searching.specs.Told.{table_of, OrderedPairs, found_word};
ghost use Rattle.comparing.specs.Promise.{Leaves, Compares};
ghost use Rattle.comparing.specs.Told.{Wrote};

use crate::reading_off::tell_word;
use crate::refusing::standing;
use answers::Comparison;
use loading::beginning::begin;
use pairs::letters::letters_tried;
use pairs::opening::open_in;
use refusals::limits::MOST_LETTERS;
use searching::going::End;
use searching::table::Table;
use searching::taking::search;
use store::work::Work;

pub mod reading_off;
pub mod refusing;

// Whether the two cards' patterns have the same language.
pub fn compare(
    left: &[u8],
    right: &[u8],
    work: &mut [u8],
    pairs: &mut [u8],
    word: &mut [u8],
    budget: u32,
) -> Comparison
    ensures { Compares left.now right.now work.old pairs.old word.old budget result work.new pairs.new word.new }
{
    if let Err(refusal) = standing(left, right, work.len(), pairs.len()) {
        return Comparison::Refused(refusal.number(), 0, 0, 0);
    }
    // an array, long enough for every letter: no heap
    let mut space = [0u8; MOST_LETTERS];
    let letters = letters_tried(left, right, &mut space);
    let mut working = begin(work, budget);
    let mut table = Table::empty(pairs);
    match open_in(&mut working, left, right) {
        Ok((x, y)) => compare_opened(&mut working, &mut table, word, letters, x, y),
        Err(refusal) => Comparison::Refused(refusal.number(), 0, working.places, 0),
    }
}

// Searches from the opening pair, of places x and y, and tells the end. The two places stay two parameters, as in the definition.
fn compare_opened(
    work: &mut Work<'_>,
    table: &mut Table<'_>,
    word: &mut [u8],
    letters: &[u8],
    x: usize,
    y: usize,
) -> Comparison
    requires stand { (x < work.old.places) × (y < work.old.places) }
    requires empty { table.old.pairs ≡ 0 }
    ensures same_room { work.new.room.ghost_name ≡ work.old.room.ghost_name }
    ensures same_pair_room { table.new.room.ghost_name ≡ table.old.room.ghost_name }
    ensures leaves { Leaves work.old.room.now table.old.room.now word.old (of_search (length word.old) work.old.budget (search (space_of work.old) (pairs_of table.old.room.now) letters.now x y (store_of work.old) work.old.budget)) result work.new.room.now table.new.room.now word.new }
{
    let budget = work.budget;
    let end = search(work, table, letters, x, y);
    let visits = budget - work.budget;
    match end {
        Ok(()) => Comparison::Same(table.pairs, work.places, visits),
        Err(
            End::Different {
                origin,
                letter,
                left_has,
            },
        ) => match tell_found(table, origin, letter, word) {
            Ok(length) => {
                Comparison::Different(length, left_has, table.pairs, work.places, visits)
            }
            Err(wanted) => Comparison::WordRoomShort(wanted, table.pairs, work.places, visits),
        },
        Err(End::Refused(refusal)) => {
            Comparison::Refused(refusal.number(), table.pairs, work.places, visits)
        }
    }
}

// Tells and writes the word at which the search ended, read off the pairs of the table.
fn tell_found(table: &Table<'_>, origin: usize, letter: u8, word: &mut [u8]) -> Result<usize, usize>
    requires ordered_pairs { OrderedPairs table.now.room.now table.now.pairs }
    requires origin_bound { origin ≤ table.now.pairs - 1 }
    ensures { Wrote (found_word (table_of table.now) origin letter) word.old result word.new }
{
    tell_word(table.room, table.pairs, origin, letter, word)
}
