// A writer of a text: it lays down one piece behind the other, from the start of its room on.
ghost use Rattle.std.specs.Prelude.{◌≡◌, ◌+◌, ◌*◌, ◌<◌, ◌≤◌, length};
ghost use Rattle.text.specs.Ascii.{line};
ghost use Rattle.text.specs.Digits.{hex, decimal};
ghost use Rattle.text.specs.Told.{Puts, most_number};

use crate::hex::digit_of;

// A room, and the place in it up to which text stands.
#[derive(Drop)]
pub struct Writer<'a> {
    pub out: &'a mut [u8],
    pub at: usize,
    pub ghost inside: { at ≤ length out.now },
}

impl<'a> Writer<'a> {
    // A writer at the start of a room.
    pub fn new(out: &'a mut [u8]) -> Self
        ensures same_room { result.out.ghost_name ≡ out.entry.ghost_name }
        ensures contents { result.out.now ≡ out.old }
        ensures place { result.at ≡ 0 }
    {
        Writer { out, at: 0 }
    }

    // A piece of text, as it stands.
    pub fn put(&mut self, piece: &[u8])
        requires { self.old.at + length piece.now ≤ length self.old.out.now }
        ensures same_room { self.new.out.ghost_name ≡ self.old.out.ghost_name }
        ensures as_long { length self.new.out.now ≡ length self.old.out.now }
        ensures puts { Puts self.old.out.now self.old.at piece.now self.new.at self.new.out.now }
    {
        let end = self.at + piece.len();
        self.out[self.at..end].copy_from_slice(piece);
        self.at = end;
    }

    // Bytes in hex.
    pub fn hex(&mut self, bytes: &[u8])
        requires { self.old.at + 2 * length bytes.now ≤ length self.old.out.now }
        ensures same_room { self.new.out.ghost_name ≡ self.old.out.ghost_name }
        ensures as_long { length self.new.out.now ≡ length self.old.out.now }
        ensures puts { Puts self.old.out.now self.old.at (hex bytes.now) self.new.at self.new.out.now }
    {
        for byte in bytes {
            self.put(&[digit_of(byte / 16), digit_of(byte % 16)]);
        }
    }

    // A number in decimal: its tenth part, then its last digit. `write!` does not promise how long it is, and the room is lent.
    pub fn decimal(&mut self, n: u64)
        requires { self.old.at + length (decimal n) ≤ length self.old.out.now }
        ensures same_room { self.new.out.ghost_name ≡ self.old.out.ghost_name }
        ensures as_long { length self.new.out.now ≡ length self.old.out.now }
        ensures puts { Puts self.old.out.now self.old.at (decimal n) self.new.at self.new.out.now }
    {
        if n >= 10 {
            self.decimal(n / 10);
        }
        self.put(&[b'0' + (n % 10) as u8]);
    }

    // A line of a number with this name. The three kinds of line differ in what stands behind the name, and each is three calls.
    pub fn number(&mut self, name: &[u8], n: u64)
        requires { self.old.at + length name.now + most_number ≤ length self.old.out.now }
        ensures same_room { self.new.out.ghost_name ≡ self.old.out.ghost_name }
        ensures as_long { length self.new.out.now ≡ length self.old.out.now }
        ensures puts { Puts self.old.out.now self.old.at (line name.now (decimal n)) self.new.at self.new.out.now }
        ensures upper_bound { self.new.at ≤ self.old.at + length name.now + most_number }
    {
        self.put(name);
        self.decimal(n);
        self.put(b"\n");
    }

    // A line of text with this name.
    pub fn line(&mut self, name: &[u8], value: &[u8])
        requires { self.old.at + length name.now + length value.now < length self.old.out.now }
        ensures same_room { self.new.out.ghost_name ≡ self.old.out.ghost_name }
        ensures as_long { length self.new.out.now ≡ length self.old.out.now }
        ensures puts { Puts self.old.out.now self.old.at (line name.now value.now) self.new.at self.new.out.now }
    {
        self.put(name);
        self.put(value);
        self.put(b"\n");
    }

    // A line of bytes in hex with this name.
    pub fn hex_line(&mut self, name: &[u8], bytes: &[u8])
        requires { self.old.at + length name.now + 2 * length bytes.now < length self.old.out.now }
        ensures same_room { self.new.out.ghost_name ≡ self.old.out.ghost_name }
        ensures as_long { length self.new.out.now ≡ length self.old.out.now }
        ensures puts { Puts self.old.out.now self.old.at (line name.now (hex bytes.now)) self.new.at self.new.out.now }
    {
        self.put(name);
        self.hex(bytes);
        self.put(b"\n");
    }
}
