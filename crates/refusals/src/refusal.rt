// The refusals. A comment has the refusal's line of document 01, "When the judge says no": each is given exactly then. Its number is the paper's.
ghost use Rattle.std.specs.Prelude.{◌≡◌};
ghost use Rattle.refusals.specs.Number.{number};

#[derive(Clone, Copy, Debug, PartialEq, Eq)]
pub enum Refusal {
    // "card length 0, not a multiple of 8, or too long".
    CardLength = 1,
    // "a record breaks the kind table, its fourth byte isn't zero, or a child isn't lower".
    BrokenRecord = 2,
    // "a mark is wrong".
    WrongMark = 3,
    // "word too long".
    LongWord = 4,
    // "work room under 16 bytes, over 32,768, or not a multiple of 8".
    WorkRoomSize = 5,
    // "pair room empty, over 8,192 bytes, or not a multiple of 8".
    PairRoomSize = 6,
    // "a new record, and no free place".
    NoFreePlace = 7,
    // "a visit, and no budget".
    NoBudgetLeft = 8,
    // "an agreeing new pair, and no free place for it".
    NoPlaceForPair = 9,
    // ""different", and the word room is shorter than the word".
    ShortWordRoom = 10,
    // "a listed pair names no record of the proof card".
    PairNamesNoRecord = 11,
    // "program only: job over 65,536 bytes or not of the form below".
    JobForm = 12,
}

impl Refusal {
    // The paper's number.
    pub fn number(self) -> u8
        ensures { result ≡ number self }
    {
        self as u8
    }
}
