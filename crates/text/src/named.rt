// Lines with names, each ended by a line feed: bytes in hex, and numbers. Where no such line stands there, the reader stays or goes on,
// never back.
ghost use Rattle.std.specs.Prelude.{◌≡◌, ◌*◌, ◌≤◌, length};
ghost use Rattle.text.specs.Told.{ReadsHexLine, ReadsNumberLine};

use crate::reading::Reader;

impl Reader<'_> {
    // A line of bytes in hex with this name, and how many they are. They go to the start of the room, which is long enough for every line of the text.
    pub fn hex_line(&mut self, name: &[u8], room: &mut [u8]) -> Option<usize>
        requires room_long_enough { length self.old.text.now ≤ 2 * length room.old }
        ensures same_text { self.new.text.now ≡ self.old.text.now }
        ensures reads { ReadsHexLine self.old.text.now self.old.at name.now result self.new.at room.new }
        ensures goes_on { self.old.at ≤ self.new.at }
    {
        self.pass(name)?;
        let count = self.hex(room);
        self.pass(b"\n")?;
        Some(count)
    }

    // A line of a number with this name. It differs from a line in hex in what is read, and takes its room or its largest number: one for both would
    // take a closure that says what it reads, and be longer than the two.
    pub fn number_line(&mut self, name: &[u8], most: u32) -> Option<u32>
        ensures same_text { self.new.text.now ≡ self.old.text.now }
        ensures reads { ReadsNumberLine self.old.text.now self.old.at name.now most result self.new.at }
        ensures goes_on { self.old.at ≤ self.new.at }
    {
        self.pass(name)?;
        let number = self.number(most)?;
        self.pass(b"\n")?;
        Some(number)
    }
}
