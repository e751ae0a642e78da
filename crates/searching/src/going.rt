// How a search ends before every placed pair has been taken.
ghost use Rattle.std.specs.Prelude.{◌≡◌};
ghost use Rattle.searching.specs.declared.going.End.TheVariants.{Refused};

use refusals::refusal::Refusal;

// Different: at a pair that is reached from the pair of this number by this letter, and whether the left side has the word. Or refused.
#[derive(Clone, Copy)]
pub enum End {
    Different {
        origin: usize,
        letter: u8,
        left_has: bool,
    },
    Refused(Refusal),
}

impl From<Refusal> for End {
    ghost from_gives = { λ refusal end. end ≡ Refused refusal };

    fn from(refusal: Refusal) -> End {
        End::Refused(refusal)
    }
}
