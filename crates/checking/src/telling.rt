// The answer of a call.
ghost use Rattle.std.specs.Prelude.{◌≡◌};
ghost use Rattle.answers.specs.Laws.Checking.{answer_of};
ghost use Rattle.checking.specs.Told.{verdict_told};

use crate::failing::Failure;
use answers::Checked;

// The answer that tells what checking came to, with so many places and visits.
pub fn answer(checked: Result<(), Failure>, places: usize, visits: u32) -> Checked
    ensures { result ≡ answer_of (verdict_told checked) places visits }
{
    match checked {
        Ok(()) => Checked::Accepted(places, visits),
        Err(Failure::OpeningMissing) => Checked::OpeningMissing(places, visits),
        Err(Failure::MarksDiffer(n)) => Checked::MarksDiffer(n, places, visits),
        Err(Failure::NotListed(n, letter)) => Checked::NotListed(n, letter, places, visits),
        Err(Failure::Refused(refusal)) => Checked::Refused(refusal.number(), places, visits),
    }
}
