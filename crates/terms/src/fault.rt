// Why something could not be begun: a refusal, or want of memory, which is no refusal and has no number.
ghost use Rattle.std.specs.Prelude.{◌≡◌};
ghost use Rattle.terms.specs.declared.fault.Fault.TheVariants.{Refused, Memory};

use crate::refusal::Refusal;
use std::alloc::AllocError;

#[derive(Clone, Copy, Debug)]
pub enum Fault {
    Refused(Refusal),
    Memory,
}

impl From<AllocError> for Fault {
    ghost from_gives = { λ _ r. r ≡ Memory };

    fn from(_e: AllocError) -> Fault {
        Fault::Memory
    }
}

impl From<Refusal> for Fault {
    ghost from_gives = { λ why r. r ≡ Refused why };

    fn from(why: Refusal) -> Fault {
        Fault::Refused(why)
    }
}
