// The work room of a call that is lent no other: what a line says of it, and what is written of it.
use crate::printing::{Counts, laid, show_counts, touched};
use lines::keys::Keys;
use lines::rooms::{Lent, taken};
use std::io;
use std::io::Write;

// Reads the room's keys.
pub fn read_work<'a>(keys: &mut Keys<'_, 'a>) -> Option<Lent<'a>> {
    let size = keys.size(b" work=")?;
    let fill = keys.byte(b" fill=")?;
    let was = keys.bytes_or_none(b" was=");
    Some(Lent { size, fill, was })
}

// Writes the counts, and what the call left in the room.
pub fn show_work<W: Write>(
    output: &mut W,
    counts: Counts,
    lent: &Lent<'_>,
    room: &[u8],
) -> io::Result<()> {
    show_counts(output, counts)?;
    laid(output, b" work=", room, counts.places)?;
    touched(output, lent.is_left(room, taken(room, counts.places)))
}
