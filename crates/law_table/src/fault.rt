// Why an entry is refused.
ghost use Rattle.std.specs.Prelude.{◌≡◌};

use literals::NoLiteral;
use model::Cause;
use thiserror::Error;

#[derive(Clone, Copy, PartialEq, Eq, Debug, Error)]
pub enum EntryFault {
    #[error("a number is beyond its limit")]
    OutOfRange,
    #[error("there is no room for one more")]
    Full,
}

impl Cause for EntryFault {
    ghost use Rattle.law_table.specs.Number.{entry_told};

    ghost told = { entry_told };

    fn number(&self) -> u16 {
        match self {
            EntryFault::OutOfRange => 13,
            EntryFault::Full => 14,
        }
    }
}

impl From<NoLiteral> for EntryFault {
    ghost use Rattle.law_table.specs.declared.fault.EntryFault.TheVariants.{OutOfRange};

    ghost from_gives = { λ _ r. r ≡ OutOfRange };

    fn from(_: NoLiteral) -> EntryFault {
        EntryFault::OutOfRange
    }
}
