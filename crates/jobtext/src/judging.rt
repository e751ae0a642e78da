// Judging a job in the rooms that are lent to the judge, and laying its answer down.
ghost use Rattle.std.specs.Prelude.{◌≤◌, ◌≡◌, length};
ghost use Rattle.jobform.specs.Form.{compare_job, match_job};
ghost use Rattle.jobtext.specs.Answer.{answer_text};
ghost use Rattle.jobtext.specs.Promise.{most_answer};
ghost use Rattle.jobtext.specs.Told.{Lays, word_told, told_text};

use crate::answering::{lay_different, lay_match, lay_refusal, lay_same};
use crate::lent::{LENT_PAIRS, LENT_WORD, LENT_WORK};
use answers::{Comparison, Match};
use judge::{compare, fits};
use refusals::refusal::Refusal;

// Two cards, compared.
pub fn compare_job(
    left: &[u8],
    right: &[u8],
    budget: u32,
    work: &mut [u8; LENT_WORK],
    pairs: &mut [u8; LENT_PAIRS],
    word: &mut [u8; LENT_WORD],
    out: &mut [u8],
) -> usize
    requires { most_answer ≤ length out.old }
    ensures { Lays out.old (answer_text (compare_job left.now right.now budget)) result out.new }
{
    let answer = compare(left, right, work, pairs, word, budget);
    lay_comparison(out, answer, word)
}

// A card and a word, matched.
pub fn match_job(
    left: &[u8],
    word: &[u8],
    budget: u32,
    work: &mut [u8; LENT_WORK],
    out: &mut [u8],
) -> usize
    requires { most_answer ≤ length out.old }
    ensures { Lays out.old (answer_text (match_job left.now word.now budget)) result out.new }
{
    match fits(left, word, work, budget) {
        Match::Yes(places, visits) => lay_match(out, b"verdict=yes\n", places, visits),
        Match::No(places, visits) => lay_match(out, b"verdict=no\n", places, visits),
        Match::Refused(number, _, _) => lay_refusal(out, number),
    }
}

// The text of what a comparison tells. The word of a difference stands at the start of the word room.
fn lay_comparison(out: &mut [u8], answer: Comparison, word: &[u8; LENT_WORD]) -> usize
    requires most_answer_in_bounds { most_answer ≤ length out.old }
    requires word_told_length { word_told answer ≤ length word.now }
    ensures { Lays out.old (told_text answer word.now) result out.new }
{
    match answer {
        Comparison::Same(pairs, places, visits) => lay_same(out, pairs, places, visits),
        Comparison::Different(length, left_has, pairs, places, visits) => {
            if left_has {
                lay_different(out, &word[0..length], b"left", pairs, places, visits)
            } else {
                lay_different(out, &word[0..length], b"right", pairs, places, visits)
            }
        }
        Comparison::Refused(number, _, _, _) => lay_refusal(out, number),
        Comparison::WordRoomShort(_, _, _, _) => {
            lay_refusal(out, Refusal::ShortWordRoom.number())
        }
    }
}
