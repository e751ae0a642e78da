// What the keys of a line say. They are read from the left to the right, each by what its value is, and what is not of its form is none.
ghost use Rattle.std.specs.Prelude.{◌≡◌, ◌≤◌, ◌+◌, [], ◌∷◌, ◌++◌, ◌⊎◌, length, IfSome, IfNone, Decides, is_some};
ghost use Rattle.text.specs.Digits.{hex, decimal};
ghost use Rattle.text.specs.Told.{Passes};
ghost use Rattle.lines.specs.Line.{Stands, DigitsEnd, IsNotThere, NoByte, NoneUpTo, Ends};

use crate::rooms::LARGEST_ROOM;
use refusals::limits::MOST_BUDGET;
use text::reading::Reader;

// The bytes that the longest line can spell. They have an array of a fixed size, since there is to be no heap.
pub const SPELLED: usize = 200000;

// A line as far as it is read, and what is left of the room for the bytes that it spells. The bytes stand in the room, and may outlive the line.
#[derive(Drop)]
pub struct Keys<'l, 'r> {
    pub line: Reader<'l>,
    pub room: &'r mut [u8],
}

impl<'l, 'r> Keys<'l, 'r> {
    // A line that is not read yet.
    pub fn new(line: &'l [u8], room: &'r mut [u8]) -> Self
        ensures text { result.line.text.now ≡ line.now }
        ensures place { result.line.at ≡ 0 }
        ensures room { result.room.now ≡ room.old }
    {
        let line = Reader::new(line);
        Keys { line, room }
    }

    // A key, as it stands.
    pub fn key(&mut self, key: &[u8]) -> Option<()>
        ensures same_text { self.new.line.text.now ≡ self.old.line.text.now }
        ensures room_kept { self.new.room.now ≡ self.old.room.now }
        ensures passes { Passes self.old.line.text.now self.old.line.at key.now result self.new.line.at }
    {
        self.line.pass(key)
    }

    // A key and bytes in hex, as many as have their digits there and find room.
    pub fn bytes(&mut self, key: &[u8]) -> Option<&'r [u8]>
        ensures same_text { self.new.line.text.now ≡ self.old.line.text.now }
        ensures stands { IfSome result (λ bytes.
            Stands self.old.line.text.now self.old.line.at (key.now ++ hex bytes.now) self.new.line.at) }
        ensures digits_end { IfSome result (λ bytes.
            DigitsEnd self.old.line.text.now self.new.line.at (length bytes.now) (length self.old.room.now)) }
        ensures room_left { IfSome result (λ bytes.
            length bytes.now + length self.new.room.now ≡ length self.old.room.now) }
        ensures room_kept { IfNone result (self.new.room.now ≡ self.old.room.now) }
        ensures none { IfNone result (
            IsNotThere self.old.line.text.now self.old.line.at key.now × (self.new.line.at ≡ self.old.line.at)) }
    {
        self.key(key)?;
        let count = self.line.hex(self.room);
        let bytes = self.room.split_off_mut(..count)?;
        Some(bytes)
    }

    // The same, of a key that may be left out: there are then none.
    pub fn bytes_or_none(&mut self, key: &[u8]) -> &'r [u8]
        ensures same_text { self.new.line.text.now ≡ self.old.line.text.now }
        ensures stands { Stands self.old.line.text.now self.old.line.at (key.now ++ hex result.now) self.new.line.at
            × DigitsEnd self.old.line.text.now self.new.line.at (length result.now) (length self.old.room.now)
            ⊎ IsNotThere self.old.line.text.now self.old.line.at key.now × (result.now ≡ []) × (self.new.line.at ≡ self.old.line.at) }
        ensures room_left { length result.now + length self.new.room.now ≡ length self.old.room.now }
    {
        self.bytes(key).unwrap_or(&[])
    }

    // A key and one byte in hex.
    pub fn byte(&mut self, key: &[u8]) -> Option<u8>
        ensures same_text { self.new.line.text.now ≡ self.old.line.text.now }
        ensures room_kept { self.new.room.now ≡ self.old.room.now }
        ensures stands { IfSome result (λ byte.
            Stands self.old.line.text.now self.old.line.at (key.now ++ hex (byte ∷ [])) self.new.line.at) }
        ensures none { IfNone result (NoByte self.old.line.text.now self.old.line.at key.now) }
        ensures goes_on { self.old.line.at ≤ self.new.line.at }
    {
        self.key(key)?;
        // as a value, and not handed on: an edit can turn it
        let byte = self.line.byte()?;
        Some(byte)
    }

    // A key and a room's size.
    pub fn size(&mut self, key: &[u8]) -> Option<usize>
        ensures same_text { self.new.line.text.now ≡ self.old.line.text.now }
        ensures room_kept { self.new.room.now ≡ self.old.room.now }
        ensures stands { IfSome result (λ size.
            Stands self.old.line.text.now self.old.line.at (key.now ++ decimal size) self.new.line.at) }
        ensures none { IfNone result (NoneUpTo LARGEST_ROOM self.old.line.text.now self.old.line.at key.now) }
        ensures goes_on { self.old.line.at ≤ self.new.line.at }
        ensures no_larger { IfSome result (λ size. size ≤ LARGEST_ROOM) }
    {
        let size = self.number(key, LARGEST_ROOM as u32)?;
        Some(size as usize)
    }

    // A key and a budget.
    pub fn budget(&mut self, key: &[u8]) -> Option<u32>
        ensures same_text { self.new.line.text.now ≡ self.old.line.text.now }
        ensures room_kept { self.new.room.now ≡ self.old.room.now }
        ensures stands { IfSome result (λ budget.
            Stands self.old.line.text.now self.old.line.at (key.now ++ decimal budget) self.new.line.at) }
        ensures none { IfNone result (NoneUpTo MOST_BUDGET self.old.line.text.now self.old.line.at key.now) }
        ensures goes_on { self.old.line.at ≤ self.new.line.at }
    {
        self.number(key, MOST_BUDGET)
    }

    // The end of the line, or an arrow: what follows it is not read.
    pub fn end(&mut self) -> Option<()>
        ensures { Decides (is_some result) (Ends self.old.line.text.now self.old.line.at) }
    {
        let line = self.line;
        if line.is_at_end() {
            return Some(());
        }
        self.line.pass(b" ->")
    }

    // A key and a number that is not too large.
    fn number(&mut self, key: &[u8], most: u32) -> Option<u32>
        ensures same_text { self.new.line.text.now ≡ self.old.line.text.now }
        ensures room_kept { self.new.room.now ≡ self.old.room.now }
        ensures stands { IfSome result (λ number.
            Stands self.old.line.text.now self.old.line.at (key.now ++ decimal number) self.new.line.at) }
        ensures none { IfNone result (NoneUpTo most self.old.line.text.now self.old.line.at key.now) }
        ensures goes_on { self.old.line.at ≤ self.new.line.at }
        ensures no_larger { IfSome result (λ number. number ≤ most) }
    {
        self.key(key)?;
        self.line.number(most)
    }
}
