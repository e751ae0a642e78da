// The rooms that the program lends. Document 01: "It lends 32,768, 8,192 and 1,024 bytes."
use refusals::limits::{MOST_PAIR_ROOM, MOST_PAIRS, MOST_ROOM};

// The bytes lent as work room, pair room and word room: the largest work room and pair room that a call takes, and a byte for each pair, since a
// word is no longer than the pairs placed.
pub const LENT_WORK: usize = MOST_ROOM;

pub const LENT_PAIRS: usize = MOST_PAIR_ROOM;

pub const LENT_WORD: usize = MOST_PAIRS;
