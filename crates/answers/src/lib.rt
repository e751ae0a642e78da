// The answers of the three calls, declared once: the calls below the door give them, and the door hands them on as they are.
// The paper's number and values for each case stand in specs/: Matching.antt, Comparing.antt and Checking.antt.
// A refusal is told by its number and not as a `Refusal`, since callers are given these types as they are (README.md, "How to call it"), and the law
// `tells_so` of Checking has an answer for every number.
#![tactic(auto)]

// The answer of `fits`, with these values in this order:
//   Yes, No        places, visits
//   Refused        number, places, visits
#[derive(Clone, Copy)]
pub enum Match {
    Yes(usize, u32),
    No(usize, u32),
    Refused(u8, usize, u32),
}

// The answer of `compare`, with these values in this order:
//   Same           pairs, places, visits
//   Different      length of the word, whether the left side has it, pairs, places, visits; the word stands at the start of the word room
//   Refused        number, pairs, places, visits
//   WordRoomShort  length wanted, pairs, places, visits; this is number 10
#[derive(Clone, Copy)]
pub enum Comparison {
    Same(usize, usize, u32),
    Different(usize, bool, usize, usize, u32),
    Refused(u8, usize, usize, u32),
    WordRoomShort(usize, usize, usize, u32),
}

// The answer of `check`, with these values in this order. A rejection tells the first failing point, and numbers pairs from 0:
//   Accepted        places, visits
//   OpeningMissing  places, visits; rejected, since the opening pair is not listed
//   MarksDiffer     pair, places, visits; rejected, since the marks of the pair differ
//   NotListed       pair, letter, places, visits; rejected, since the pair leads by the letter to one that is not listed
//   Refused         number, places, visits
#[derive(Clone, Copy)]
pub enum Checked {
    Accepted(usize, u32),
    OpeningMissing(usize, u32),
    MarksDiffer(usize, usize, u32),
    NotListed(usize, u8, usize, u32),
    Refused(u8, usize, u32),
}
