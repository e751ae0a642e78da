// The checker's pass over the list, in its fixed order: the opening pair; then pair by pair in list order the marks, and the letters
// ascending, for each the left derived, then the right.
// That the listed pairs are mapped into the store is asked in words (`Inside`): it is a fact of both, and no type of one of them can say it.
// The two places x and y stay two parameters: the definitions take them so, and a pair of them would be taken apart at each use.
ghost use Rattle.std.specs.Prelude.{[], ◌∷◌, ◌<◌, ◌≡◌};
ghost use Rattle.std.specs.Bool.{beq};
ghost use Rattle.records.specs.Record.{child};
ghost use Rattle.cards.specs.Mark.{marked};
ghost use Rattle.store.specs.Work.{store_of, space_of};
ghost use Rattle.pairs.specs.Pair.{pair_at};
ghost use Rattle.pairs.specs.Room.{pairs_of};
ghost use Rattle.checking.specs.Check.{check_letters, check_pairs, check_list};
ghost use Rattle.checking.specs.Listed.{mapped_list, Inside};
ghost use Rattle.checking.specs.Told.{check_pair, Goes, Ends};

use crate::failing::Failure;
use crate::listing::Listed;
use derivative::both::derive_both;
use pairs::pair::PAIR;
use store::work::Work;

// The list, for the opening pair of places x and y.
pub fn check_list(
    work: &mut Work<'_>,
    listed: Listed<'_>,
    letters: &[u8],
    x: usize,
    y: usize,
) -> Result<(), Failure>
    requires inside { Inside listed.list.now listed.map.now work.old.places }
    requires stand { (x < work.old.places) × (y < work.old.places) }
    ensures same_room { work.new.room.ghost_name ≡ work.old.room.ghost_name }
    ensures ends { Ends work.old (check_list (space_of work.old) letters.now (mapped_list listed.entry.map.now listed.entry.list.now) x y (store_of work.old) work.old.budget) result work.new }
{
    if !listed.stands_listed(x as u16, y as u16) {
        return Err(Failure::OpeningMissing);
    }
    check_pairs(work, listed, letters)
}

// Every pair in list order.
fn check_pairs(work: &mut Work<'_>, listed: Listed<'_>, letters: &[u8]) -> Result<(), Failure>
    requires { Inside listed.list.now listed.map.now work.old.places }
    ensures same_room { work.new.room.ghost_name ≡ work.old.room.ghost_name }
    ensures ends { Ends work.old (check_pairs (space_of work.old) letters.now (mapped_list listed.entry.map.now listed.entry.list.now) 0 (mapped_list listed.entry.map.now listed.entry.list.now) (store_of work.old) work.old.budget) result work.new }
{
    let count = listed.list.len() / PAIR;
    for n in 0..count {
        check_pair(work, listed, letters, n)?;
    }
    Ok(())
}

// The pair numbered n: its marks, then each letter.
fn check_pair(
    work: &mut Work<'_>,
    listed: Listed<'_>,
    letters: &[u8],
    n: usize,
) -> Result<(), Failure>
    requires inside { Inside listed.list.now listed.map.now work.old.places }
    requires n_bound { n < pairs_of listed.list.now }
    ensures same_room { work.new.room.ghost_name ≡ work.old.room.ghost_name }
    ensures goes { Goes work.old (check_pair (space_of work.old) letters.now (mapped_list listed.entry.map.now listed.entry.list.now) n (pair_at (mapped_list listed.entry.map.now listed.entry.list.now) n) (store_of work.old) work.old.budget) result work.new }
{
    let p = listed.mapped_pair(n);
    let x = p.left as usize;
    let y = p.right as usize;
    if !marks_agree(work, x, y) {
        return Err(Failure::MarksDiffer(n));
    }
    check_letters(work, listed, letters, n, x, y)
}

// Whether the marks at the two places say the same.
fn marks_agree(work: &Work<'_>, x: usize, y: usize) -> bool
    requires { (x < work.now.places) × (y < work.now.places) }
    ensures { result ≡ beq (marked (child (store_of work.now) x)) (marked (child (store_of work.now) y)) }
{
    work.marked(x) == work.marked(y)
}

// The pair numbered n, of places x and y, by each letter in turn. The search goes by each letter too (`by_letters`), but it enters the pair
// that it comes to, which here must stand in the list: other rooms, other ends, and one loop.
fn check_letters(
    work: &mut Work<'_>,
    listed: Listed<'_>,
    letters: &[u8],
    n: usize,
    x: usize,
    y: usize,
) -> Result<(), Failure>
    requires { (x < work.old.places) × (y < work.old.places) }
    ensures same_room { work.new.room.ghost_name ≡ work.old.room.ghost_name }
    ensures goes { Goes work.old (check_letters (space_of work.old) (mapped_list listed.entry.map.now listed.entry.list.now) n x y letters.now (store_of work.old) work.old.budget) result work.new }
{
    for letter in letters {
        check_letter(work, listed, *letter, n, x, y)?;
    }
    Ok(())
}

// The pair numbered n, of places x and y, by one letter.
fn check_letter(
    work: &mut Work<'_>,
    listed: Listed<'_>,
    letter: u8,
    n: usize,
    x: usize,
    y: usize,
) -> Result<(), Failure>
    requires { (x < work.old.places) × (y < work.old.places) }
    ensures same_room { work.new.room.ghost_name ≡ work.old.room.ghost_name }
    ensures goes { Goes work.old (check_letters (space_of work.old) (mapped_list listed.entry.map.now listed.entry.list.now) n x y (letter ∷ []) (store_of work.old) work.old.budget) result work.new }
{
    let (next_x, next_y) = derive_both(work, x, y, letter)?;
    if !listed.stands_listed(next_x as u16, next_y as u16) {
        return Err(Failure::NotListed(n, letter));
    }
    Ok(())
}
