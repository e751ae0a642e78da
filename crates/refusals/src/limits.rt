// The limits of document 01: what is too much, or too little, of each thing that is lent.

// "A pattern card has 1 to 512 records. A proof card, for the checker, has 1 to 4,096."
pub const MOST_PATTERN_RECORDS: usize = 512;

pub const MOST_PROOF_RECORDS: usize = 4096;

// "A word has 0 to 65,535 bytes."
pub const MOST_WORD: usize = 65535;

// "A budget is 0 to 4,294,967,295 visits."
pub const MOST_BUDGET: u32 = 4294967295;

// Number 5: a work room has 16 to 32,768 bytes.
pub const LEAST_ROOM: usize = 16;

pub const MOST_ROOM: usize = 32768;

// Number 6: a pair room has at most 8,192 bytes.
pub const MOST_PAIR_ROOM: usize = 8192;

// The most pairs: those of the largest pair room, 8 bytes each.
pub const MOST_PAIRS: usize = MOST_PAIR_ROOM / 8;

// Letters are bytes: there are so many.
pub const MOST_LETTERS: usize = 256;

// Number 12: a job has at most 65,536 bytes.
pub const MOST_JOB: usize = 65536;
