// Examining a card: refusals 1, 2 and 3, for any bytes.
ghost use Rattle.std.specs.Prelude.{◌≡◌, ◌+◌, ◌*◌, ◌≤◌, eqb, length};
ghost use Rattle.refusals.specs.Told.{standing_told};
ghost use Rattle.records.specs.Record.{records, child, record_at};
ghost use Rattle.cards.specs.Mark.{bit, marked, has_empty};
ghost use Rattle.cards.specs.Examine.{wrong_length, letter_field, child_field, obeys_line, obeys, mark_right, record_standing, examined, pattern_card, proof_card};

use records::kind::{Columns, Kind, columns_of};
use records::record::{RECORD, Record};
use refusals::limits::{MOST_PATTERN_RECORDS, MOST_PROOF_RECORDS};
use refusals::refusal::Refusal;
use runs::item::Item;

// A pattern card. It and a proof card differ in one number, which is `examine`'s argument; each has its name, since document 01 names both.
pub fn examine_pattern(card: &[u8]) -> Result<(), Refusal>
    ensures { standing_told result ≡ pattern_card card.now }
{
    examine(card, MOST_PATTERN_RECORDS)
}

// A proof card.
pub fn examine_proof(card: &[u8]) -> Result<(), Refusal>
    ensures { standing_told result ≡ proof_card card.now }
{
    examine(card, MOST_PROOF_RECORDS)
}

// Any bytes, as a card of at most so many records.
pub fn examine(card: &[u8], most: usize) -> Result<(), Refusal>
    ensures { standing_told result ≡ examined most card.now }
{
    if wrong_length(card.len(), most) {
        return Err(Refusal::CardLength);
    }
    for at in 0..card.len() / RECORD {
        examine_record(card, at)?;
    }
    Ok(())
}

// Number 1, of a card of so many bytes.
fn wrong_length(size: usize, most: usize) -> bool
    ensures { result ≡ wrong_length most size }
{
    (size == 0) | (size % RECORD != 0) | (most < size / RECORD)
}

// One record: 2 before 3.
fn examine_record(card: &[u8], at: usize) -> Result<(), Refusal>
    requires { 8 * at + 8 ≤ length card.now }
    ensures { standing_told result ≡ record_standing (records card.now) at (record_at card.now at) }
{
    let r = Record::read(card, at);
    if !obeys(at, r) {
        return Err(Refusal::BrokenRecord);
    }
    if !mark_right(card, r) {
        return Err(Refusal::WrongMark);
    }
    Ok(())
}

// Number 2 otherwise.
fn obeys(at: usize, r: Record) -> bool
    ensures { result ≡ obeys at r }
{
    (r.fourth == 0) & obeys_line(columns_of(Kind::from(r.kind)), at, r)
}

// A line of the kind table, for the record numbered `at`.
fn obeys_line(line: Columns, at: usize, r: Record) -> bool
    ensures { result ≡ obeys_line line at r }
{
    line.known
        & letter_field(line.letter, r.letter)
        & child_field(line.left, at, r.left)
        & child_field(line.right, at, r.right)
}

// A letter that may be any byte, and else has to be 0.
fn letter_field(any: bool, letter: u8) -> bool
    ensures { result ≡ letter_field any letter }
{
    any | (letter == 0)
}

// A field that has to name a child, whose number is lower than `at`, and else has to be 0.
fn child_field(child: bool, at: usize, field: u16) -> bool
    ensures { result ≡ child_field child at field }
{
    if child {
        (field as usize) < at
    } else {
        field == 0
    }
}

// Number 3 otherwise.
fn mark_right(card: &[u8], r: Record) -> bool
    ensures { result ≡ mark_right (records card.now) r }
{
    let left = marked_at(card, r.left as usize);
    let right = marked_at(card, r.right as usize);
    same_mark(r.mark, as_mark(has_empty(Kind::from(r.kind), left, right)))
}

// Whether a mark is the one wanted.
fn same_mark(mark: u8, wanted: u8) -> bool
    ensures { result ≡ eqb mark wanted }
{
    mark == wanted
}

// What the mark of the record numbered `at` says; no where there is no such record.
fn marked_at(card: &[u8], at: usize) -> bool
    ensures { result ≡ marked (child (records card.now) at) }
{
    if at < card.len() / RECORD {
        let r = Record::read(card, at);
        r.mark == 1
    } else {
        false
    }
}

// What a record's mark has to say, by its kind and by what its children's marks say.
pub fn has_empty(kind: Kind, left: bool, right: bool) -> bool
    ensures { result ≡ has_empty kind left right }
{
    match kind {
        Kind::Nothing => false,
        Kind::EmptyWord => true,
        Kind::Letter => false,
        Kind::Choice => left | right,
        Kind::Sequence => left & right,
        Kind::Repeat => true,
        Kind::Unknown => false,
    }
}

// Yes is 1 and no is 0.
pub fn as_mark(says: bool) -> u8
    ensures { result ≡ bit says }
{
    u8::from(says)
}
