// A line that calls `judge::fits`.
use crate::printing::{Counts, refused, said};
use crate::work_room::{read_work, show_work};
use answers::Match;
use judge::fits;
use lines::keys::Keys;
use lines::rooms::{LARGEST_ROOM, Lent};
use std::io;
use std::io::Write;

// What the line says.
#[derive(Clone, Copy)]
pub struct Matching<'a> {
    card: &'a [u8],
    word: &'a [u8],
    work: Lent<'a>,
    budget: u32,
}

impl<'a> Matching<'a> {
    // Reads the line's keys.
    pub fn read(mut keys: Keys<'_, 'a>) -> Option<Self> {
        let card = keys.bytes(b" card=")?;
        let word = keys.bytes(b" word=")?;
        let work = read_work(&mut keys)?;
        let budget = keys.budget(b" budget=")?;
        keys.end()?;
        Some(Matching {
            card,
            word,
            work,
            budget,
        })
    }

    // Makes the call, and writes what it told and left.
    pub fn answer<W: Write>(&self, output: &mut W) -> io::Result<()> {
        let mut space = [0; LARGEST_ROOM];
        let room = self.work.lay(&mut space);
        let told = fits(self.card, self.word, room, self.budget);
        let counts = show(output, told)?;
        show_work(output, counts, &self.work, room)
    }
}

// Writes the answer, and tells the counts.
fn show<W: Write>(output: &mut W, told: Match) -> io::Result<Counts> {
    match told {
        Match::Yes(places, visits) => said(output, b"answer=yes", places, visits),
        Match::No(places, visits) => said(output, b"answer=no", places, visits),
        Match::Refused(reason, places, visits) => {
            refused(output, reason)?;
            Ok(Counts { places, visits })
        }
    }
}
