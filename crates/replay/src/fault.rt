// Why a replay is refused.
ghost use Rattle.replay.specs.Number.{number};

use model::Cause;
use thiserror::Error;

// The log has fewer places than there are calls. The model is handed back.
#[derive(Debug, Drop, Error)]
#[error("too few places for the log")]
pub struct ShortLog<M> {
    pub model: M,
}

impl<M> Cause for ShortLog<M> {
    ghost told = { number };

    fn number(&self) -> u16 {
        14
    }
}
