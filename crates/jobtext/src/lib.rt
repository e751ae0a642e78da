// The job text: `answer` takes any bytes, asks nothing of its caller, and lays down the whole text that the job program writes.
// The definitions that its promise cites stand in specs/; specs/Lib.antt lists them.
#![tactic(auto)]

ghost use Rattle.std.specs.Prelude.{◌≤◌, length};
ghost use Rattle.refusals.specs.Limits.{most_job};
ghost use Rattle.jobtext.specs.Promise.{AnswersIn};

use crate::answering::lay_refusal;
use crate::judging::{compare_job, match_job};
use crate::lent::{LENT_PAIRS, LENT_WORD, LENT_WORK};
use jobform::{Job, read_job};
use refusals::limits::MOST_JOB;
use refusals::refusal::Refusal;

mod answering;
mod judging;
mod lent;

// The largest number of bytes that a job holds in hex.
const MOST_HEX: usize = MOST_JOB / 2;

// The room that is long enough for every answer, in bytes: the longest word has two digits a byte, and five short lines stand beside it.
pub const MOST_ANSWER: usize = 2 * LENT_WORD + 2048;

// How many bytes of the answer stand at the start of the room; those behind them are left as lent.
#[tactic(auto, using(crate::specs::Laws::Answering::too_long_answered))]
pub fn answer(text: &[u8], out: &mut [u8; MOST_ANSWER]) -> usize
    ensures { AnswersIn text.now out.old result out.new }
{
    if MOST_JOB < text.len() {
        return lay_refusal(out, Refusal::JobForm.number());
    }
    // arrays of the sizes that the program lends: no heap
    let mut left = [0u8; MOST_HEX];
    let mut second = [0u8; MOST_HEX];
    let mut work = [0u8; LENT_WORK];
    let mut pairs = [0u8; LENT_PAIRS];
    let mut word = [0u8; LENT_WORD];
    answer_in(
        text,
        &mut left,
        &mut second,
        &mut work,
        &mut pairs,
        &mut word,
        out,
    )
}

// The same in rooms that are lent: two for what a job holds in hex, and the judge's three.
fn answer_in(
    text: &[u8],
    left: &mut [u8; MOST_HEX],
    second: &mut [u8; MOST_HEX],
    work: &mut [u8; LENT_WORK],
    pairs: &mut [u8; LENT_PAIRS],
    word: &mut [u8; LENT_WORD],
    out: &mut [u8; MOST_ANSWER],
) -> usize
    requires text_short { length text.now ≤ most_job }
    ensures { AnswersIn text.now out.old result out.new }
{
    match read_job(text, left, second) {
        Some(
            Job::Compare {
                left: l,
                right: r,
                budget,
            },
        ) => compare_job(&left[0..l], &second[0..r], budget, work, pairs, word, out),
        Some(
            Job::Match {
                left: l,
                word: w,
                budget,
            },
        ) => match_job(&left[0..l], &second[0..w], budget, work, out),
        None => lay_refusal(out, Refusal::JobForm.number()),
    }
}
