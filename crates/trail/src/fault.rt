// Why a trail refuses.
ghost use Rattle.trail.specs.Number.{number};

use model::Cause;
use thiserror::Error;

#[derive(Clone, Copy, PartialEq, Eq, Debug, Error)]
pub enum TrailFault {
    #[error("the trail is full")]
    Full,
}

impl Cause for TrailFault {
    ghost told = { number };

    fn number(&self) -> u16 {
        match *self {
            TrailFault::Full => 14,
        }
    }
}
