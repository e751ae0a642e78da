// The letters tried.
ghost use Rattle.std.specs.Prelude.{◌≡◌, ◌≤◌, length, take};
ghost use Rattle.pairs.specs.Tried.{mentioned, tried};
ghost use Rattle.refusals.specs.Limits.{most_letters};

use cards::letters::mentions;
use refusals::limits::MOST_LETTERS;

// Writes the letters of either card into `letters`, ascending, and answers how many there are: its promise stays, and `letters_tried` hands them on as a slice.
pub fn tried(left: &[u8], right: &[u8], letters: &mut [u8]) -> usize
    requires { most_letters ≤ length letters.old }
    ensures value { result ≡ length (tried left.now right.now) }
    ensures letters_after { take result letters.new ≡ tried left.now right.now }
{
    let mut count = 0;
    for at in 0..MOST_LETTERS {
        let letter = at as u8;
        if mentioned(left, right, letter) {
            letters[count] = letter;
            count += 1;
        }
    }
    count
}

// The letters of either card, ascending, in the space that is lent for them.
pub fn letters_tried<'a>(left: &[u8], right: &[u8], space: &'a mut [u8]) -> &'a [u8]
    requires { most_letters ≤ length space.old }
    ensures { result.now ≡ tried left.now right.now }
{
    let count = tried(left, right, space);
    &space[..count]
}

// Whether a letter record of either card has the letter.
fn mentioned(left: &[u8], right: &[u8], letter: u8) -> bool
    ensures { result ≡ mentioned left.now right.now letter }
{
    mentions(left, letter) | mentions(right, letter)
}
