// Writing an answer, piece by piece.
use lines::parts::part;
use lines::printing::{bytes, number, words};
use lines::rooms::taken;
use std::io;
use std::io::Write;

// The places taken and the visits made.
#[derive(Clone, Copy)]
pub struct Counts {
    pub places: usize,
    pub visits: u32,
}

// An answer with its counts, which are handed on.
pub fn said<W: Write>(
    output: &mut W,
    answer: &[u8],
    places: usize,
    visits: u32,
) -> io::Result<Counts> {
    words(output, answer)?;
    Ok(Counts { places, visits })
}

// A refusal, by its number: the answers at the door tell it so.
pub fn refused<W: Write>(output: &mut W, reason: u8) -> io::Result<()> {
    number(output, b"answer=refused reason=", u64::from(reason))
}

// The counts.
pub fn show_counts<W: Write>(output: &mut W, counts: Counts) -> io::Result<()> {
    let Counts { places, visits } = counts;
    write!(output, " places={places} visits={visits}")
}

// A key and the bytes that a number of places or pairs takes at the start of a room.
pub fn laid<W: Write>(output: &mut W, key: &[u8], room: &[u8], count: usize) -> io::Result<()> {
    bytes(output, key, part(room, 0, taken(room, count)))
}

// Says where a byte that is not to be written is not as it was lent.
pub fn touched<W: Write>(output: &mut W, as_lent: bool) -> io::Result<()> {
    if as_lent {
        Ok(())
    } else {
        words(output, b" touched")
    }
}
