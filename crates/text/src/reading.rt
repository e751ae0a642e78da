// A reader of a text: it takes what stands at its place, and goes on behind that, or tells that nothing of that form stands there. No reader goes
// back, so reading takes time that grows with the text's length alone.
ghost use Rattle.std.specs.Prelude.{◌≡◌, ◌+◌, ◌*◌, ◌≤◌, ◌==◌, length};
ghost use Rattle.text.specs.Told.{Passes, ReadsByte, ReadsHex, ReadsDigit, ReadsNumber};

use crate::decimal::{first_digit, value_of, with_digit};
use crate::hex::byte_of;

// A text, and the place in it where it is read on.
#[derive(Clone, Copy)]
pub struct Reader<'a> {
    pub text: &'a [u8],
    pub at: usize,
    pub ghost inside: { at ≤ length text.now },
}

impl<'a> Reader<'a> {
    // A reader at the start of a text.
    pub fn new(text: &'a [u8]) -> Self
        ensures text { result.text.now ≡ text.now }
        ensures place { result.at ≡ 0 }
    {
        Reader { text, at: 0 }
    }

    // Whether the whole text is read.
    pub fn is_at_end(&self) -> bool
        ensures { result ≡ (self.now.at == length self.now.text.now) }
    {
        self.at == self.text.len()
    }

    // A piece of text, as it stands. Where it does not stand there, the reader stays.
    pub fn pass(&mut self, piece: &[u8]) -> Option<()>
        ensures same_text { self.new.text.now ≡ self.old.text.now }
        ensures passes { Passes self.old.text.now self.old.at piece.now result self.new.at }
    {
        if !self.text[self.at..].starts_with(piece) {
            return None;
        }
        self.at += piece.len();
        Some(())
    }

    // One byte in hex. Where none stands there, the reader stays.
    pub fn byte(&mut self) -> Option<u8>
        ensures same_text { self.new.text.now ≡ self.old.text.now }
        ensures reads { ReadsByte self.old.text.now self.old.at result self.new.at }
    {
        let [high, low, ..] = &self.text[self.at..] else {
            return None;
        };
        let byte = byte_of(*high, *low)?;
        self.at += 2;
        Some(byte)
    }

    // Bytes in hex, as many as have their digits there and find room: they go to the start of the room, and it is told how many they are.
    pub fn hex(&mut self, room: &mut [u8]) -> usize
        ensures same_text { self.new.text.now ≡ self.old.text.now }
        ensures reads { ReadsHex self.old.text.now self.old.at result room.new }
        ensures goes_on { self.new.at ≡ self.old.at + 2 * result }
    {
        for count in 0..room.len() {
            let Some(byte) = self.byte() else {
                return count;
            };
            room[count] = byte;
        }
        room.len()
    }

    // One decimal digit. Where none stands there, the reader stays.
    pub fn digit(&mut self) -> Option<u8>
        ensures same_text { self.new.text.now ≡ self.old.text.now }
        ensures reads { ReadsDigit self.old.text.now self.old.at result self.new.at }
    {
        let digit = *self.text.get(self.at)?;
        value_of(digit)?;
        self.at += 1;
        Some(digit)
    }

    // A number in decimal, up to the first byte that is no digit. Where there is none that is not too large, the reader stays or goes on, never
    // back: a caller that tries something else keeps a copy.
    pub fn number(&mut self, most: u32) -> Option<u32>
        ensures same_text { self.new.text.now ≡ self.old.text.now }
        ensures reads { ReadsNumber self.old.text.now self.old.at most result self.new.at }
        ensures goes_on { self.old.at ≤ self.new.at }
    {
        let mut value = first_digit(self.digit()?, most)?;
        while let Some(digit) = self.digit() {
            value = with_digit(value, digit, most)?;
        }
        Some(value)
    }
}
