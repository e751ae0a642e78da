// Why a list does not pass.
ghost use Rattle.std.specs.Prelude.{◌≡◌};
ghost use Rattle.checking.specs.declared.failing.Failure.TheVariants.{Refused};

use refusals::refusal::Refusal;

// The opening pair is missing; or the pair of this number fails, at its marks or by this letter; or the call is refused.
#[derive(Clone, Copy)]
pub enum Failure {
    OpeningMissing,
    MarksDiffer(usize),
    NotListed(usize, u8),
    Refused(Refusal),
}

impl From<Refusal> for Failure {
    ghost from_gives = { λ refusal failure. failure ≡ Refused refusal };

    fn from(refusal: Refusal) -> Failure {
        Failure::Refused(refusal)
    }
}
