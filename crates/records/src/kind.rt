// The kinds of record, and document 01's kind table: what each kind's record has in its letter, left and right fields.
ghost use Rattle.std.specs.Prelude.{◌≡◌};
ghost use Rattle.records.specs.Kind.{kind_of, line, columns};
ghost use Rattle.records.specs.Number.{number};

// The kinds have their numbers in the table; `Unknown` is of every other number.
#[derive(Clone, Copy, PartialEq, Eq)]
pub enum Kind {
    Nothing = 0,
    EmptyWord = 1,
    Letter = 2,
    Choice = 3,
    Sequence = 4,
    Repeat = 5,
    Unknown = 6,
}

impl Kind {
    // The number of the kind.
    pub fn number(self) -> u8
        ensures { result ≡ number self }
    {
        self as u8
    }
}

// The kind that a number names.
impl From<u8> for Kind {
    ghost from_gives = { λ number kind. kind ≡ kind_of number };

    fn from(number: u8) -> Kind {
        match number {
            0 => Kind::Nothing,
            1 => Kind::EmptyWord,
            2 => Kind::Letter,
            3 => Kind::Choice,
            4 => Kind::Sequence,
            5 => Kind::Repeat,
            _ => Kind::Unknown,
        }
    }
}

// A line of the kind table: whether the table has it; whether the letter is any byte, and else 0; whether left and right each name a
// child, and else are 0. `known` is a flag, since the definition `columns` has it as one.
#[derive(Clone, Copy)]
pub struct Columns {
    pub known: bool,
    pub letter: bool,
    pub left: bool,
    pub right: bool,
}

// What a line says of a field.
const ZERO: bool = false;

const ANY: bool = true;

const CHILD: bool = true;

// The kind table, a line a kind: letter, left, right.
pub fn columns_of(kind: Kind) -> Columns
    ensures { result ≡ columns kind }
{
    match kind {
        Kind::Nothing => line(ZERO, ZERO, ZERO),
        Kind::EmptyWord => line(ZERO, ZERO, ZERO),
        Kind::Letter => line(ANY, ZERO, ZERO),
        Kind::Choice => line(ZERO, CHILD, CHILD),
        Kind::Sequence => line(ZERO, CHILD, CHILD),
        Kind::Repeat => line(ZERO, CHILD, ZERO),
        Kind::Unknown => Columns {
            known: false,
            letter: ZERO,
            left: ZERO,
            right: ZERO,
        },
    }
}

// A line of the table.
fn line(letter: bool, left: bool, right: bool) -> Columns
    ensures { result ≡ line letter left right }
{
    Columns {
        known: true,
        letter,
        left,
        right,
    }
}
