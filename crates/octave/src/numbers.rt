// The errors of this crate's calls in the rule book's numbers.
ghost use Rattle.octave.specs.Answer.{count_refusal, prepare_refusal, fault_refusal, input_refusal, block_refusal};
ghost use Rattle.std.proofs.Common.{rules};

use crate::block::BlockError;
use crate::input::InputError;
use crate::memory::{CountError, Fault, PrepareError};
use answers::refused::{Numbered, Refused};

impl Numbered for CountError {
    ghost refusal = { count_refusal };

    fn refused(self) -> Refused {
        match self {
            CountError::BandCount => Refused::plain(1),
            CountError::ChannelCount => Refused::plain(9),
        }
    }

    ghost has_number = { Prim.search rules };
}

impl Numbered for PrepareError {
    ghost refusal = { prepare_refusal };

    fn refused(self) -> Refused {
        match self {
            PrepareError::Count(error) => error.refused(),
            PrepareError::MemoryLength => Refused::plain(2),
        }
    }

    ghost has_number = { Prim.search rules };
}

impl Numbered for Fault {
    ghost refusal = { fault_refusal };

    fn refused(self) -> Refused {
        match self {
            Fault::CountWrong => Refused::plain(31),
            Fault::LengthWrong => Refused::plain(32),
            Fault::PositionOutside => Refused::plain(33),
        }
    }

    ghost has_number = { Prim.search rules };
}

impl Numbered for InputError {
    ghost refusal = { input_refusal };

    fn refused(self) -> Refused {
        match self {
            InputError::PartFrame => Refused::plain(6),
            InputError::TooLong => Refused::plain(7),
            InputError::Sample(place) => Refused { number: 8, place },
        }
    }

    ghost has_number = { Prim.search rules };
}

impl Numbered for BlockError {
    ghost refusal = { block_refusal };

    fn refused(self) -> Refused {
        match self {
            BlockError::Memory(fault) => fault.refused(),
            BlockError::GainCount => Refused::plain(4),
            BlockError::Gain => Refused::plain(5),
            BlockError::OutputLength => Refused::plain(6),
            BlockError::Input(error) => error.refused(),
        }
    }

    ghost has_number = { Prim.search rules };
}
