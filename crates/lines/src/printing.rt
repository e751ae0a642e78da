// Writing an answer: words, keys with their values, bytes in hex, and the end of a line's answer. Where it is known what the writer holds, each
// says what is added to that.
ghost use Rattle.std.specs.Prelude.{[], ◌∷◌, ◌++◌, ◌≤◌, length, if◌then◌else◌, OnOk, codes};
ghost use Rattle.std.specs.Fmt.{decimal};
ghost use Rattle.std.specs.Io.KnownBytes.{Appends};
ghost use Rattle.text.specs.Digits.{hex};

use crate::parts::part;
use std::io;
use std::io::Write;
use text::writing::Writer;

// The bytes whose digits are written at once.
const BLOCK: usize = 2048;

// Words as they stand.
pub fn words<W: Write>(output: &mut W, shown: &[u8]) -> io::Result<()>
    ensures { OnOk result (Appends (W.contents output.old) (W.contents output.new) shown.now) }
{
    output.write_all(shown)
}

// A key and its number.
pub fn number<W: Write>(output: &mut W, key: &[u8], value: u64) -> io::Result<()>
    ensures { OnOk result
        (Appends (W.contents output.old) (W.contents output.new) (key.now ++ decimal value)) }
{
    words(output, key)?;
    write!(output, "{value}")
}

// A key and its bytes.
pub fn bytes<W: Write>(output: &mut W, key: &[u8], shown: &[u8]) -> io::Result<()>
    ensures { OnOk result
        (Appends (W.contents output.old) (W.contents output.new) (key.now ++ hex shown.now)) }
{
    words(output, key)?;
    hex(output, shown)
}

// A key and its one byte.
pub fn byte<W: Write>(output: &mut W, key: &[u8], shown: u8) -> io::Result<()>
    ensures { OnOk result
        (Appends (W.contents output.old) (W.contents output.new) (key.now ++ hex (shown ∷ []))) }
{
    bytes(output, key, &[shown])
}

// Bytes as lower-case hexadecimal digits.
pub fn hex<W: Write>(output: &mut W, shown: &[u8]) -> io::Result<()>
    ensures { OnOk result
        (Appends (W.contents output.old) (W.contents output.new) (hex shown.now)) }
{
    for piece in shown.chunks(BLOCK) {
        block(output, piece)?;
    }
    Ok(())
}

// Ends the answer to a line, which is `bad line` where the line was not answered.
pub fn end<W: Write>(output: &mut W, answered: bool) -> io::Result<()>
    ensures { OnOk result
        (Appends (W.contents output.old) (W.contents output.new)
        (if answered then codes "\n" else codes "bad line\n")) }
{
    if !answered {
        words(output, b"bad line")?;
    }
    words(output, b"\n")
}

// Writes the digits of no more bytes than a block has.
fn block<W: Write>(output: &mut W, shown: &[u8]) -> io::Result<()>
    requires { length shown.now ≤ BLOCK }
    ensures { OnOk result
        (Appends (W.contents output.old) (W.contents output.new) (hex shown.now)) }
{
    // the array stays: no heap
    let mut digits = [0; 2 * BLOCK];
    let mut writer = Writer::new(&mut digits);
    writer.hex(shown);
    let length = writer.at;
    words(output, part(&digits, 0, length))
}
