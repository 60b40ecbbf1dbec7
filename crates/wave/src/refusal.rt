// Why a header is refused, and the rule book's numbers for it.
ghost use Rattle.std.proofs.Common.{rules};
ghost use Rattle.wave.specs.Walk.{refusal_of};

use answers::refused::{Numbered, Refused};

#[derive(Clone, Copy, Debug, PartialEq, Eq)]
pub enum Refusal {
    // 21: under 12 bytes, or the names are wrong.
    NotWave,
    // 22: no `fmt ` before `data`.
    NoFormat,
    // 23: a `fmt ` of another length, with a wrong value, or a second one.
    WrongFormat,
    // 24: a chunk's header, or the contents of `fmt `, not wholly in the front.
    CutOff,
    // 25: the length of `data` is not whole frames.
    PartFrame,
}

impl Numbered for Refusal {
    ghost refusal = { refusal_of };

    ghost has_number = { Prim.search rules };

    fn refused(self) -> Refused {
        Refused::plain(match self {
            Refusal::NotWave => 21,
            Refusal::NoFormat => 22,
            Refusal::WrongFormat => 23,
            Refusal::CutOff => 24,
            Refusal::PartFrame => 25,
        })
    }
}
