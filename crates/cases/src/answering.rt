// Answering what comes in, a line at a time.
use crate::checking_line::Checking;
use crate::comparing_line::Comparing;
use crate::job_line::Job;
use crate::matching_line::Matching;
use lines::keys::{Keys, SPELLED};
use lines::printing::end;
use lines::reading::each_line;
use std::io;
use std::io::{Read, Write};

// The words that a line begins with.
#[derive(Clone, Copy)]
enum Word {
    Match,
    Compare,
    Check,
    Job,
}

// What a line asks for.
#[derive(Clone, Copy)]
enum Asked<'a> {
    Match(Matching<'a>),
    Compare(Comparing<'a>),
    Check(Checking<'a>),
    Job(Job<'a>),
}

// Answers each line.
pub fn answer_all<R: Read, W: Write>(input: &mut R, output: &mut W) -> io::Result<()> {
    each_line(input, |line| answer_line(output, line))
}

// Answers a line, or none where it is too long. The whole answer is written before the next line is read.
fn answer_line<W: Write>(output: &mut W, line: Option<&[u8]>) -> io::Result<()> {
    let answered = match line {
        Some(line) => answer(output, line)?,
        None => false,
    };
    end(output, answered)?;
    output.flush()
}

// Writes the answer to a line, and tells whether the line is of some form. The word is looked at before room is made for the line's bytes.
fn answer<W: Write>(output: &mut W, line: &[u8]) -> io::Result<bool> {
    match word_of(line) {
        Some((word, keys)) => answer_word(output, word, keys),
        None => Ok(false),
    }
}

// The word that a line begins with, and its keys, from the space behind the word on.
fn word_of(line: &[u8]) -> Option<(Word, &[u8])> {
    let (word, keys) = first_word(line)?;
    if !keys.starts_with(b" ") {
        return None;
    }
    Some((word, keys))
}

// The word that the line's first bytes spell, and what stands behind them.
fn first_word(line: &[u8]) -> Option<(Word, &[u8])> {
    if let Some(rest) = line.strip_prefix(b"match") {
        return Some((Word::Match, rest));
    }
    if let Some(rest) = line.strip_prefix(b"compare") {
        return Some((Word::Compare, rest));
    }
    if let Some(rest) = line.strip_prefix(b"check") {
        return Some((Word::Check, rest));
    }
    let rest = line.strip_prefix(b"job")?;
    Some((Word::Job, rest))
}

// Writes the answer to a line that begins with a word and a space. It stays a call of its own, so that no other line pays for its room.
#[inline(never)]
fn answer_word<W: Write>(output: &mut W, word: Word, keys: &[u8]) -> io::Result<bool> {
    // the array stays: no heap
    let mut room = [0; SPELLED];
    match read(word, Keys::new(keys, &mut room)) {
        Some(Asked::Match(call)) => call.answer(output)?,
        Some(Asked::Compare(call)) => call.answer(output)?,
        Some(Asked::Check(call)) => call.answer(output)?,
        Some(Asked::Job(job)) => job.answer(output)?,
        None => return Ok(false),
    }
    Ok(true)
}

// Reads the keys by their word.
fn read<'a>(word: Word, keys: Keys<'_, 'a>) -> Option<Asked<'a>> {
    match word {
        Word::Match => Matching::read(keys).map(Asked::Match),
        Word::Compare => Comparing::read(keys).map(Asked::Compare),
        Word::Check => Checking::read(keys).map(Asked::Check),
        Word::Job => Job::read(keys).map(Asked::Job),
    }
}
