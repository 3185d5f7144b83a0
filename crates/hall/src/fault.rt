// Why a job is not done.
ghost use Rattle.hall.specs.Number.{number};

use super::network::Press;
use model::Cause;
use thiserror::Error;

#[derive(Clone, Copy, PartialEq, Eq, Debug, Error)]
pub enum HallFault {
    #[error("there is no such job")]
    NoSuchJob,
    #[error("the hall cannot stand like this")]
    NotAState,
    #[error("that is done already")]
    AlreadyDone,
    // The press does not trust what its gateway serves, so nothing can be installed on it.
    #[error("press {0} is off the network")]
    OffNetwork(Press),
    #[error("the maintenance window is closed")]
    WindowClosed,
    #[error("the maintenance window is open")]
    WindowOpen,
    // The window opens only once gateway 1 serves the new chain.
    #[error("gateway 1 has to serve the new chain first")]
    TooEarly,
}

impl Cause for HallFault {
    ghost told = { number };

    fn number(&self) -> u16 {
        match self {
            HallFault::NoSuchJob => 21,
            HallFault::NotAState => 22,
            HallFault::AlreadyDone => 101,
            HallFault::OffNetwork(_) => 102,
            HallFault::WindowClosed => 103,
            HallFault::WindowOpen => 104,
            HallFault::TooEarly => 105,
        }
    }
}
