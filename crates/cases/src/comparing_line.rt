// A line that calls `judge::compare`.
use crate::printing::{Counts, laid, refused, show_counts, touched};
use answers::Comparison;
use judge::compare;
use lines::keys::Keys;
use lines::parts::part;
use lines::printing::{bytes, number, words};
use lines::rooms::{LARGEST_ROOM, Lent, taken};
use refusals::refusal::Refusal;
use std::io;
use std::io::Write;

// What the line says.
#[derive(Clone, Copy)]
pub struct Comparing<'a> {
    left: &'a [u8],
    right: &'a [u8],
    work: Lent<'a>,
    pairs: Lent<'a>,
    word: Lent<'a>,
    budget: u32,
}

// What was told of the rooms: the pairs, the counts, and the bytes written to the word room.
#[derive(Clone, Copy)]
struct Told {
    pairs: usize,
    counts: Counts,
    written: usize,
}

impl<'a> Comparing<'a> {
    // Reads the line's keys. The word room begins with nothing of an earlier call.
    pub fn read(mut keys: Keys<'_, 'a>) -> Option<Self> {
        let left = keys.bytes(b" left=")?;
        let right = keys.bytes(b" right=")?;
        let work = keys.size(b" work=")?;
        let pairs = keys.size(b" pairs=")?;
        let word = keys.size(b" word=")?;
        let fill = keys.byte(b" fill=")?;
        let was = keys.bytes_or_none(b" was=");
        let had = keys.bytes_or_none(b" had=");
        let budget = keys.budget(b" budget=")?;
        keys.end()?;
        let work = Lent {
            size: work,
            fill,
            was,
        };
        let pairs = Lent {
            size: pairs,
            fill,
            was: had,
        };
        let word = Lent {
            size: word,
            fill,
            was: &[],
        };
        Some(Comparing {
            left,
            right,
            work,
            pairs,
            word,
            budget,
        })
    }

    // Makes the call, and writes what it told and left.
    pub fn answer<W: Write>(&self, output: &mut W) -> io::Result<()> {
        let mut work_space = [0; LARGEST_ROOM];
        let mut pair_space = [0; LARGEST_ROOM];
        let mut word_space = [0; LARGEST_ROOM];
        let work = self.work.lay(&mut work_space);
        let pairs = self.pairs.lay(&mut pair_space);
        let word = self.word.lay(&mut word_space);
        let answer = compare(self.left, self.right, work, pairs, word, self.budget);
        let told = show(output, answer, word)?;
        number(output, b" pairs=", told.pairs as u64)?;
        show_counts(output, told.counts)?;
        laid(output, b" work=", work, told.counts.places)?;
        laid(output, b" table=", pairs, told.pairs)?;
        let as_lent = self.work.is_left(work, taken(work, told.counts.places))
            && self.pairs.is_left(pairs, taken(pairs, told.pairs))
            && self.word.is_left(word, told.written);
        touched(output, as_lent)
    }
}

// Writes the answer with its reason or its word, and tells what was told of the rooms.
fn show<W: Write>(output: &mut W, answer: Comparison, room: &[u8]) -> io::Result<Told> {
    let mut written = 0;
    let (pairs, places, visits) = match answer {
        Comparison::Same(pairs, places, visits) => {
            words(output, b"answer=same")?;
            (pairs, places, visits)
        }
        Comparison::Different(length, left_has, pairs, places, visits) => {
            bytes(output, b"answer=different word=", part(room, 0, length))?;
            let side: &[u8] = if left_has {
                b" only=left"
            } else {
                b" only=right"
            };
            words(output, side)?;
            written = length;
            (pairs, places, visits)
        }
        Comparison::Refused(reason, pairs, places, visits) => {
            refused(output, reason)?;
            (pairs, places, visits)
        }
        Comparison::WordRoomShort(length, pairs, places, visits) => {
            refused(output, Refusal::ShortWordRoom.number())?;
            number(output, b" length=", length as u64)?;
            (pairs, places, visits)
        }
    };
    let counts = Counts { places, visits };
    Ok(Told {
        pairs,
        counts,
        written,
    })
}
