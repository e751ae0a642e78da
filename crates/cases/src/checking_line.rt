// A line that calls `judge::check`.
use crate::printing::{Counts, refused, said};
use crate::work_room::{read_work, show_work};
use answers::Checked;
use judge::check;
use lines::keys::Keys;
use lines::printing::{byte, number};
use lines::rooms::{LARGEST_ROOM, Lent};
use std::io;
use std::io::Write;

// What the line says.
#[derive(Clone, Copy)]
pub struct Checking<'a> {
    left: &'a [u8],
    right: &'a [u8],
    proof: &'a [u8],
    list: &'a [u8],
    work: Lent<'a>,
    budget: u32,
}

impl<'a> Checking<'a> {
    // Reads the line's keys.
    pub fn read(mut keys: Keys<'_, 'a>) -> Option<Self> {
        let left = keys.bytes(b" left=")?;
        let right = keys.bytes(b" right=")?;
        let proof = keys.bytes(b" proof=")?;
        let list = keys.bytes(b" list=")?;
        let work = read_work(&mut keys)?;
        let budget = keys.budget(b" budget=")?;
        keys.end()?;
        Some(Checking {
            left,
            right,
            proof,
            list,
            work,
            budget,
        })
    }

    // Makes the call, and writes what it told and left.
    pub fn answer<W: Write>(&self, output: &mut W) -> io::Result<()> {
        let Checking {
            left,
            right,
            proof,
            list,
            work,
            budget,
        } = *self;
        let mut space = [0; LARGEST_ROOM];
        let room = work.lay(&mut space);
        let told = check(left, right, proof, list, room, budget);
        let counts = show(output, told)?;
        show_work(output, counts, &work, room)
    }
}

// Writes the answer, and tells the counts.
fn show<W: Write>(output: &mut W, told: Checked) -> io::Result<Counts> {
    match told {
        Checked::Accepted(places, visits) => said(output, b"answer=accepted", places, visits),
        Checked::OpeningMissing(places, visits) => {
            said(output, b"answer=rejected at=opening", places, visits)
        }
        Checked::MarksDiffer(pair, places, visits) => {
            number(output, b"answer=rejected at=", pair as u64)?;
            Ok(Counts { places, visits })
        }
        Checked::NotListed(pair, letter, places, visits) => {
            number(output, b"answer=rejected at=", pair as u64)?;
            byte(output, b" letter=", letter)?;
            Ok(Counts { places, visits })
        }
        Checked::Refused(reason, places, visits) => {
            refused(output, reason)?;
            Ok(Counts { places, visits })
        }
    }
}
