// Reading what comes in to its end, line by line.
ghost use Rattle.std.specs.Prelude.{ℕ, ◌+◌, ◌<◌, ◌≤◌, List, [], ◌∷◌, ◌++◌, length, IfSome, OnOk};
ghost use Rattle.lines.specs.Answered.{lines_of, GivenAs, EachAnswered};
ghost use Rattle.lines.specs.Kept.{Holds, GoesOn};

use std::io;
use std::io::Read;

const LINE_FEED: u8 = b'\n';

// The bytes of the longest line that is kept.
pub const LONGEST: usize = 400000;
// The bytes that are read at once.
pub const CHUNK: usize = 65536;

// A line as far as it came: its bytes, no more than the longest line has, and how many there were. The array with a length beside it stays,
// since there is to be no heap.
#[derive(Drop)]
struct Line {
    bytes: [u8; LONGEST],
    length: usize,
}

impl Line {
    // A line of which nothing came.
    fn new() -> Self
        ensures { Holds LONGEST result [] }
    {
        Line {
            bytes: [0; LONGEST],
            length: 0,
        }
    }

    // The line, if it is not too long.
    fn text(&self) -> Option<&[u8]>
        ensures { (came : List ℕ) → Holds LONGEST self.now came → GivenAs LONGEST came result }
    {
        self.bytes.get(..self.length)
    }

    // One more byte comes.
    fn keep(&mut self, byte: u8)
        ensures { (came : List ℕ) → length came < usize.MAX → Holds LONGEST self.old came
            → Holds LONGEST self.new (came ++ byte ∷ []) }
    {
        if self.length < LONGEST {
            self.bytes[self.length] = byte;
        }
        self.length = self.length.saturating_add(1);
    }

    // Another line comes.
    fn clear(&mut self)
        ensures { Holds LONGEST self.new [] }
    {
        self.length = 0;
    }
}

// Has each line answered, without its line feed, before more is read; a line that is too long is answered as none.
pub fn each_line<R: Read, F: FnMut(Option<&[u8]>) -> io::Result<()>>(
    input: &mut R,
    mut answer: F,
) -> io::Result<()>
    requires { F.IsAlwaysCallable answer }
    ensures { OnOk result (IfSome (R.remaining input.old) (λ text.
        length text < usize.MAX → (last : F) × EachAnswered LONGEST F.step answer (lines_of text []) last)) }
{
    // the array stays, and `count` beside it: no heap
    let mut chunk = [0; CHUNK];
    let mut line = Line::new();
    for _ in 0..u64::MAX {
        let count = input.read(&mut chunk)?;
        if count == 0 {
            return answer_last(&line, answer);
        }
        answer_each(&mut line, &chunk[..count], &mut answer)?;
    }
    Ok(())
}

// Has the last line answered, if any bytes of it came.
fn answer_last<F: FnMut(Option<&[u8]>) -> io::Result<()>>(
    line: &Line,
    mut answer: F,
) -> io::Result<()>
    requires { F.IsAlwaysCallable answer }
    ensures { OnOk result ((came : List ℕ) → Holds LONGEST line.now came
        → (last : F) × EachAnswered LONGEST F.step answer (lines_of [] came) last) }
{
    if line.length == 0 {
        return Ok(());
    }
    answer(line.text())
}

// Takes more bytes, and has each line that they end answered.
fn answer_each<F: FnMut(Option<&[u8]>) -> io::Result<()>>(
    line: &mut Line,
    bytes: &[u8],
    answer: &mut F,
) -> io::Result<()>
    requires { F.IsAlwaysCallable answer.old }
    ensures callable { F.IsAlwaysCallable answer.new }
    ensures answers { OnOk result ((came : List ℕ) → Holds LONGEST line.old came → length came + length bytes.now ≤ usize.MAX
        → GoesOn LONGEST F.step answer.old came bytes.now answer.new line.new) }
{
    for byte in bytes {
        if *byte == LINE_FEED {
            answer_kept(line, answer)?;
            continue;
        }
        line.keep(*byte);
    }
    Ok(())
}

// Takes a line's end: has the line answered, and another line comes.
fn answer_kept<F: FnMut(Option<&[u8]>) -> io::Result<()>>(
    line: &mut Line,
    answer: &mut F,
) -> io::Result<()>
    requires { F.IsAlwaysCallable answer.old }
    ensures callable { F.IsAlwaysCallable answer.new }
    ensures answers { OnOk result ((came : List ℕ) → Holds LONGEST line.old came → length came < usize.MAX
        → GoesOn LONGEST F.step answer.old came (LINE_FEED ∷ []) answer.new line.new) }
{
    answer(line.text())?;
    line.clear();
    Ok(())
}
