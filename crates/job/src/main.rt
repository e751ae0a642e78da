// The job program: reads a job on standard input and writes its answer on standard output. What the answer says is all the library
// `jobtext`'s.
//
// Numbers 4, 5, 6, 10 and 11 cannot come from it:
// - 4: a word in a job of 65,536 bytes has fewer than 32,768 bytes.
// - 5 and 6: the rooms lent, of 32,768 and 8,192 bytes, are legal.
// - 10: a difference's word is never longer than the pairs placed, at most 1,024, and the word room has 1,024 bytes.
// - 11: the program never checks.
#![tactic(auto)]

ghost use Rattle.std.specs.Prelude.{◌<◌, ◌≤◌, length, take, OnOk, IfOk, IfSome};
ghost use Rattle.std.specs.Io.KnownBytes.{Consumes, IsAtEnd};
ghost use Rattle.job.specs.Promise.{ReadsJob, WritesAnswer};

use jobtext::MOST_ANSWER;
use refusals::limits::MOST_JOB;
use std::io;
use std::io::{Read, Write};

// The bytes that are read: one more than the longest job has, so that a longer one is known, and no more, so that the program ends on
// endless input too.
const MOST_READ: usize = MOST_JOB + 1;

fn main(rt: HostRuntime) -> io::Result<()> {
    answer_job(&mut rt.stdin(), &mut rt.stdout())
}

// Reads a job and writes its answer.
fn answer_job<R: Read, W: Write>(input: &mut R, output: &mut W) -> io::Result<()>
    ensures read { OnOk result (ReadsJob (R.remaining input.old) (R.remaining input.new)) }
    ensures written { OnOk result (IfSome (R.remaining input.old)
        (WritesAnswer (W.contents output.old) (W.contents output.new))) }
{
    // the arrays stay, each with a length beside it: no heap
    let mut job = [0; MOST_READ];
    let count = read_full(input, &mut job)?;
    let mut out = [0; MOST_ANSWER];
    let length = jobtext::answer(&job[..count], &mut out);
    output.write_all(&out[..length])
}

// Reads until the room is full or the input ends, and tells how many bytes came. The loop stays: `read_exact` refuses an input that ends before
// the room is full, and `read_to_end` needs a heap.
fn read_full<R: Read>(input: &mut R, room: &mut [u8]) -> io::Result<usize>
    ensures in_room { IfOk result (λ count. count ≤ length room.new) }
    ensures bytes { IfOk result (λ count.
        Consumes (R.remaining input.old) (R.remaining input.new) (take count room.new)) }
    ensures end { IfOk result (λ count.
        count < length room.new → IsAtEnd (R.remaining input.new)) }
{
    let mut count = 0;
    while count < room.len() {
        let more = input.read(&mut room[count..])?;
        if more == 0 {
            return Ok(count);
        }
        count += more;
    }
    Ok(count)
}
