// The judge: the three calls that are offered to others. `fits` says whether a word fits a pattern, `compare` whether two patterns allow the same
// words, and `check` whether a list of pairs proves that they do. Nothing of the store shows through: a caller sees these calls and their answers,
// whose types the crate `answers` declares; no other crate below is offered.
//
// What is lent. Cards, words, lists and rooms may be any bytes of any length, and a budget any number of visits. The calls ask nothing of their
// caller, always end, and read and write nothing outside what they are lent. What a room held before plays no part in any answer.
// A call takes at most 512 KiB of stack, as measured: docs/TESTING.md.
//
// What is told. Places are the records that stand at the start of the work room, and pairs those that stand at the start of the pair room. Visits
// are what was spent of the budget. Every other byte of a room is as lent; the word room changes only on "different".
//
// Refusals, by number:
//    1  a card's length is 0, not a multiple of 8, or too long: a pattern card has at most 512 records of 8 bytes, a proof card 4,096
//    2  a record breaks the kind table, its fourth byte is not zero, or a child is not lower
//    3  a mark is wrong
//    4  the word is longer than 65,535 bytes
//    5  the work room is under 16 bytes, over 32,768, or not a multiple of 8
//    6  the pair room, or the list, is empty, over 8,192 bytes, or not a multiple of 8
//    7  a new record, and no free place
//    8  a visit, and no budget
//    9  an agreeing new pair, and no free place for it
//   10  "different", and the word room is shorter than the word
//   11  a listed pair names no record of the proof card
// Numbers 1 to 6 and 11 come before any work, in the order that each call names: for a card 1 first, then record by record, 2 before 3. They tell
// zeros and leave every byte as lent. Numbers 7 to 10 come on the way: what was placed by then stands and is told.
//
// The answers are those of the crate `answers`, which says what each tells: a program that calls the door names it too.
// The promises that the contracts cite stand in specs/Promise.antt of matching, comparing and checking.
#![tactic(auto)]

ghost use Rattle.matching.specs.Promise.{Fits};
ghost use Rattle.comparing.specs.Promise.{Compares};
ghost use Rattle.checking.specs.Promise.{Checks};

use answers::{Checked, Comparison, Match};

// Whether the word is in the language of the card's pattern. The room is the work room.
// Refused by 1 to 3 for the card, 4, 5; on the way by 7 and 8.
pub fn fits(card: &[u8], word: &[u8], room: &mut [u8], budget: u32) -> Match
    ensures { Fits card.now word.now room.old budget result room.new }
{
    matching::fits(card, word, room, budget)
}

// Whether the two cards' patterns have the same language. The rooms are the work room, the pair room and the word room. The records and the
// pairs that "same" leaves are a proof card and a list for `check`. The word of "different" is the shortest that is in exactly one language, and of
// those the lowest in byte order.
// Refused by 1 to 3 for the left card, then for the right, 5, 6; on the way by 7 to 10.
pub fn compare(
    left: &[u8],
    right: &[u8],
    work: &mut [u8],
    pairs: &mut [u8],
    word: &mut [u8],
    budget: u32,
) -> Comparison
    ensures { Compares left.now right.now work.old pairs.old word.old budget result work.new pairs.new word.new }
{
    comparing::compare(left, right, work, pairs, word, budget)
}

// Whether the list, of pairs of the proof card's records, proves the two pattern cards' languages equal. The room is the work room.
// Refused by 1 to 3 for the left card, then for the right, then for the proof card, 5, 6 for the list, 11; on the way by 7 and 8.
pub fn check(
    left: &[u8],
    right: &[u8],
    proof: &[u8],
    list: &[u8],
    room: &mut [u8],
    budget: u32,
) -> Checked
    ensures { Checks left.now right.now proof.now list.now room.old budget result room.new }
{
    checking::check(left, right, proof, list, room, budget)
}
