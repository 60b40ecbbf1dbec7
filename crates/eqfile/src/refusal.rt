// Why a run does not start, or stops, and the page's numbers for it.
ghost use Rattle.std.proofs.Common.{rules};
ghost use Rattle.std.specs.Prelude.{◌≡◌};
ghost use Rattle.eqfile.specs.Start.{refusal_of};
ghost use Rattle.eqfile.specs.declared.refusal.Refusal.TheVariants.{Header};

use answers::refused::{Numbered, Refused};

#[derive(Clone, Copy, Debug, PartialEq, Eq)]
pub enum Refusal {
    // 30
    Arguments,
    // 21 to 25: the reader's.
    Header(wave::Refusal),
    // 26: three bytes for each sample are too many.
    TooLong,
    // 41: a sample of a block is no number.
    NotNumber,
}

impl From<wave::Refusal> for Refusal {
    ghost from_gives = { λ header refusal. refusal ≡ Header header };

    fn from(header: wave::Refusal) -> Refusal {
        Refusal::Header(header)
    }
}

impl Numbered for Refusal {
    ghost refusal = { refusal_of };

    ghost has_number = { Prim.search rules };

    fn refused(self) -> Refused {
        match self {
            Refusal::Arguments => Refused::plain(30),
            Refusal::Header(header) => header.refused(),
            Refusal::TooLong => Refused::plain(26),
            Refusal::NotNumber => Refused::plain(41),
        }
    }
}
