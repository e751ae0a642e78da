// The letters of a card.
ghost use Rattle.std.specs.Prelude.{◌≡◌};
ghost use Rattle.records.specs.Record.{records};
ghost use Rattle.cards.specs.Letters.{letter_of, mentions};

use records::kind::{Kind, columns_of};
use records::record::{RECORD, Record};
use runs::item::Item;

// Whether some letter record of the card has the letter.
pub fn mentions(card: &[u8], letter: u8) -> bool
    ensures { result ≡ mentions (records card.now) letter }
{
    for at in 0..card.len() / RECORD {
        let r = Record::read(card, at);
        if letter_of(Kind::from(r.kind), r.letter, letter) {
            return true;
        }
    }
    false
}

// Whether a record of this kind with this letter is a letter record of `letter`: its kind has a letter, and it is this one.
fn letter_of(kind: Kind, own: u8, letter: u8) -> bool
    ensures { result ≡ letter_of kind own letter }
{
    let line = columns_of(kind);
    line.letter & (own == letter)
}
