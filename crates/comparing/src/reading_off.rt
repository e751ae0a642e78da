// The word that tells two languages apart: read off the letters of the table, from the last back to pair number 0.
ghost use Rattle.std.specs.Prelude.{◌≡◌, ◌∷◌, ◌++◌, suc, ◌-◌, ◌<◌, ◌≤◌, length, drop};
ghost use Rattle.pairs.specs.Room.{table_in};
ghost use Rattle.searching.specs.ReadOff.{word_of};
ghost use Rattle.comparing.specs.Told.{Wrote};
ghost use Rattle.searching.specs.Told.{OrderedPairs, found_word};

use pairs::pair::Pair;
use runs::item::Item;

// Writes the word of a pair that is reached from the pair numbered `from` by a letter at the start of the word room, and tells its length; the
// empty word where no pair is placed. Or the word room is too short for it: then the length wanted is told.
// The pairs are a room and their number here, and no `Table`: that each pair comes from an earlier one is asked in words, which a table does not promise.
pub fn tell_word(
    pairs: &[u8],
    placed: usize,
    from: usize,
    letter: u8,
    word: &mut [u8],
) -> Result<usize, usize>
    requires ordered_pairs { OrderedPairs pairs.now placed }
    requires from_bound { from ≤ placed - 1 }
    ensures { Wrote (found_word (table_in pairs.now placed) from letter) word.old result word.new }
{
    if placed == 0 {
        return Ok(0);
    }
    let size = word_length(pairs, placed, from) + 1;
    if word.len() < size {
        return Err(size);
    }
    write_word(pairs, placed, from, letter, word, size);
    Ok(size)
}

// The length of the word of the pair numbered `from`.
fn word_length(pairs: &[u8], placed: usize, from: usize) -> usize
    requires ordered_pairs { OrderedPairs pairs.now placed }
    requires from_lt_placed { from < placed }
    ensures { result ≡ length (word_of (table_in pairs.now placed) from) }
{
    let mut at = from;
    let mut count = 0;
    // a `while`: each pair tells the one that it came from, so no range and no slice has these numbers
    while at != 0 {
        let p = Pair::read(pairs, at);
        at = p.origin as usize;
        count += 1;
    }
    count
}

// Writes the word, which is so long, from its last letter to its first.
fn write_word(pairs: &[u8], placed: usize, from: usize, letter: u8, word: &mut [u8], size: usize)
    requires ordered_pairs { OrderedPairs pairs.now placed }
    requires from_lt_placed { from < placed }
    requires size_value { size ≡ suc (length (word_of (table_in pairs.now placed) from)) }
    requires size_in_bounds { size ≤ length word.old }
    ensures { word.new ≡ word_of (table_in pairs.now placed) from ++ letter ∷ drop size word.old }
{
    let mut end = size - 1;
    word[end] = letter;
    let mut at = from;
    // a `while`: each pair tells the one that it came from, so no range and no slice has these numbers
    while at != 0 {
        let p = Pair::read(pairs, at);
        end -= 1;
        word[end] = p.letter;
        at = p.origin as usize;
    }
}
