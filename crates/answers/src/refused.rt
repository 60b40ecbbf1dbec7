// A refusal as the rule book tells it. Each call has an error of its own; what they share is that each has a number.
ghost use Rattle.std.specs.Prelude.{◌≡◌, ◌<◌};
ghost use Rattle.answers.specs.Answer.{plain};
ghost use Rattle.answers.specs.declared.refused.Refused.{Refused};

// The number, and the place: 0 where no place is asked.
#[derive(Clone, Copy, Debug, PartialEq, Eq)]
pub struct Refused {
    pub number: u8,
    pub place: usize,
}

// What a call's error has in the rule book. No refusal has the number 0.
pub trait Numbered {
    ghost refusal: { Self → Refused };

    fn refused(self) -> Refused
        ensures { result ≡ refusal self };

    ghost has_number: { (error : Self) → 0 < (refusal error).number };
}

impl Refused {
    // A refusal that has no place.
    pub fn plain(number: u8) -> Refused
        ensures { result ≡ plain number }
    {
        Refused { number, place: 0 }
    }
}
