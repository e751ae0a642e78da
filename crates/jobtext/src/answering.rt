// The text of an answer, laid down from the start of its room, which is long enough for the longest.
ghost use Rattle.std.specs.Prelude.{◌≡◌, ◌++◌, ◌+◌, ◌≤◌, length};
ghost use Rattle.text.specs.Told.{Puts};
ghost use Rattle.jobtext.specs.Answer.{lent_word, refused_text, two_counts, three_counts, same_text, different_text};
ghost use Rattle.jobtext.specs.Promise.{most_answer};
ghost use Rattle.jobtext.specs.Told.{Lays, most_verdict, most_two_counts, most_three_counts};

use text::writing::Writer;

// A refusal, by its number: the answers at the door tell it so.
pub fn lay_refusal(out: &mut [u8], number: u8) -> usize
    requires { most_answer ≤ length out.old }
    ensures { Lays out.old (refused_text number) result out.new }
{
    let mut writer = Writer::new(out);
    writer.put(b"verdict=refused\n");
    writer.number(b"reason=", number as u64);
    writer.at
}

// The answer of a match: the line of its verdict, the places and the visits.
pub fn lay_match(out: &mut [u8], verdict: &[u8], places: usize, visits: u32) -> usize
    requires most_answer_in_bounds { most_answer ≤ length out.old }
    requires verdict_short { length verdict.now ≤ most_verdict }
    ensures { Lays out.old (verdict.now ++ two_counts places visits) result out.new }
{
    let mut writer = Writer::new(out);
    writer.put(verdict);
    put_two_counts(&mut writer, places, visits);
    writer.at
}

// "Same", with the three counts. Beside `lay_match` it has a fixed verdict and one line more, in its own order.
pub fn lay_same(out: &mut [u8], pairs: usize, places: usize, visits: u32) -> usize
    requires { most_answer ≤ length out.old }
    ensures { Lays out.old (same_text pairs places visits) result out.new }
{
    let mut writer = Writer::new(out);
    writer.put(b"verdict=same\n");
    put_three_counts(&mut writer, pairs, places, visits);
    writer.at
}

// "Different", with the word, the side that has it and the three counts.
pub fn lay_different(
    out: &mut [u8],
    word: &[u8],
    side: &[u8],
    pairs: usize,
    places: usize,
    visits: u32,
) -> usize
    requires most_answer_in_bounds { most_answer ≤ length out.old }
    requires word_short { length word.now ≤ lent_word }
    requires side_short { length side.now ≤ most_verdict }
    ensures { Lays out.old (different_text word.now side.now pairs places visits) result out.new }
{
    let mut writer = Writer::new(out);
    writer.put(b"verdict=different\n");
    writer.hex_line(b"word=", word);
    writer.line(b"only=", side);
    put_three_counts(&mut writer, pairs, places, visits);
    writer.at
}

// The places and the visits.
fn put_two_counts(writer: &mut Writer<'_>, places: usize, visits: u32)
    requires { writer.old.at + most_two_counts ≤ length writer.old.out.now }
    ensures same_room { writer.new.out.ghost_name ≡ writer.old.out.ghost_name }
    ensures as_long { length writer.new.out.now ≡ length writer.old.out.now }
    ensures puts { Puts writer.old.out.now writer.old.at (two_counts places visits) writer.new.at writer.new.out.now }
    ensures upper_bound { writer.new.at ≤ writer.old.at + most_two_counts }
{
    writer.number(b"places=", places as u64);
    writer.number(b"visits=", visits as u64);
}

// The pairs, the places and the visits.
fn put_three_counts(writer: &mut Writer<'_>, pairs: usize, places: usize, visits: u32)
    requires { writer.old.at + most_three_counts ≤ length writer.old.out.now }
    ensures same_room { writer.new.out.ghost_name ≡ writer.old.out.ghost_name }
    ensures as_long { length writer.new.out.now ≡ length writer.old.out.now }
    ensures puts { Puts writer.old.out.now writer.old.at (three_counts pairs places visits) writer.new.at writer.new.out.now }
    ensures upper_bound { writer.new.at ≤ writer.old.at + most_three_counts }
{
    writer.number(b"pairs=", pairs as u64);
    put_two_counts(writer, places, visits);
}
