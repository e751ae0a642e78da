// A tool for testing: runs the calls and the jobs that standard input has, one a line, and writes for each call what it told and what it left
// in its rooms, and for each job its answer's text. A line that is of no form is answered `bad line`.
#![tactic(auto)]

use std::io;
use std::io::BufWriter;

mod answering;
mod checking_line;
mod comparing_line;
mod job_line;
mod matching_line;
mod printing;
mod work_room;

fn main(rt: HostRuntime) -> io::Result<()> {
    let mut input = rt.stdin();
    let mut output = BufWriter::new(rt.alloc(), rt.stdout())?;
    answering::answer_all(&mut input, &mut output)
}
