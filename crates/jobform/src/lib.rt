// A job, read from its text: the job that the text is the text of, or none. The definitions that the contracts cite stand in specs/;
// specs/Lib.antt lists them.
#![tactic(auto)]

ghost use Rattle.std.specs.Prelude.{◌*◌, ◌≤◌, length};
ghost use Rattle.jobform.specs.Told.{ReadsLines, Reads};

use refusals::limits::MOST_BUDGET;
use text::reading::Reader;

// The lines after the first: the lengths of what they hold in hex, and the budget.
#[derive(Clone, Copy)]
pub struct Lines {
    pub left: usize,
    pub second: usize,
    pub budget: u32,
}

// A job: the length of the left card, that of the right card or the word, and the budget.
#[derive(Clone, Copy)]
pub enum Job {
    Compare {
        left: usize,
        right: usize,
        budget: u32,
    },
    Match {
        left: usize,
        word: usize,
        budget: u32,
    },
}

// The job that a text is the text of. What it holds in hex goes to the start of the two rooms.
pub fn read_job(text: &[u8], left: &mut [u8], second: &mut [u8]) -> Option<Job>
    requires left_long_enough { length text.now ≤ 2 * length left.old }
    requires second_long_enough { length text.now ≤ 2 * length second.old }
    ensures { Reads text.now result left.new second.new }
{
    let mut reader = Reader::new(text);
    if reader.pass(b"job=compare\n").is_some() {
        let lines = read_lines(&mut reader, b"right=", left, second)?;
        return Some(Job::Compare {
            left: lines.left,
            right: lines.second,
            budget: lines.budget,
        });
    }
    reader.pass(b"job=match\n")?;
    let lines = read_lines(&mut reader, b"word=", left, second)?;
    Some(Job::Match {
        left: lines.left,
        word: lines.second,
        budget: lines.budget,
    })
}

// The lines after the first, up to the end of the text; the second has a name of its own.
fn read_lines(
    reader: &mut Reader<'_>,
    name: &[u8],
    left: &mut [u8],
    second: &mut [u8],
) -> Option<Lines>
    requires left_long_enough { length reader.old.text.now ≤ 2 * length left.old }
    requires second_long_enough { length reader.old.text.now ≤ 2 * length second.old }
    ensures { ReadsLines reader.old.text.now reader.old.at name.now result left.new second.new }
{
    let l = reader.hex_line(b"left=", left)?;
    let s = reader.hex_line(name, second)?;
    let budget = reader.number_line(b"budget=", MOST_BUDGET)?;
    if !reader.is_at_end() {
        return None;
    }
    Some(Lines {
        left: l,
        second: s,
        budget,
    })
}
