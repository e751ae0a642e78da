// A line that has a job answered.
use jobtext::MOST_ANSWER;
use lines::keys::Keys;
use lines::parts::part;
use lines::printing::bytes as show_bytes;
use std::io;
use std::io::Write;

// What the line says: the job's text.
#[derive(Clone, Copy)]
pub struct Job<'a> {
    text: &'a [u8],
}

impl<'a> Job<'a> {
    // Reads the line's keys.
    pub fn read(mut keys: Keys<'_, 'a>) -> Option<Self> {
        let text = keys.bytes(b" text=")?;
        keys.end()?;
        Some(Job { text })
    }

    // Writes the text of the job's answer.
    pub fn answer<W: Write>(&self, output: &mut W) -> io::Result<()> {
        // the array stays, and `length` beside it: no heap
        let mut out = [0; MOST_ANSWER];
        let length = jobtext::answer(self.text, &mut out);
        show_bytes(output, b"text=", part(&out, 0, length))
    }
}
