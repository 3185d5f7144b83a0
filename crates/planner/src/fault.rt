// Why a check or a plan is refused.
ghost use Rattle.std.specs.Prelude.{◌≡◌};
ghost use Rattle.planner.specs.Number.{check_number, check_added, plan_number};

use model::Cause;
use std::fmt::{Debug, Display};
use thiserror::Error;

// Why a list of actions is not accepted. `F` is the model's own cause.
#[derive(Clone, Copy, PartialEq, Eq, Debug, Error)]
#[error_bound(F: Display + Debug)]
pub enum CheckFault<F> {
    // The first value is not a state.
    #[error("at place 0: not a state")]
    NotAState,
    // The action at this place, counted from 1, is not allowed where it falls.
    #[error("at place {place}: {cause}")]
    Step { place: usize, cause: F },
    // The list ends before the goal.
    #[error("after {length} actions: short of the goal")]
    Short { length: usize },
}

impl<F: Copy> CheckFault<F> {
    // What is told beside the number: the place of the action, 0 for the first value, the length of a short list.
    pub fn added(&self) -> usize
        ensures { result ≡ check_added self.now }
    {
        match *self {
            CheckFault::NotAState => 0,
            CheckFault::Step { place, .. } => place,
            CheckFault::Short { length } => length,
        }
    }
}

impl<F: Cause> Cause for CheckFault<F> {
    ghost told = { check_number F.Cause.told };

    fn number(&self) -> u16 {
        match self {
            CheckFault::NotAState => 22,
            CheckFault::Step { cause, .. } => cause.number(),
            CheckFault::Short { .. } => 41,
        }
    }
}

// Why a plan is not looked for.
#[derive(Clone, Copy, PartialEq, Eq, Debug, Error)]
pub enum PlanFault {
    // The value to plan from is not a state.
    #[error("the value is not a state")]
    NotAState,
    // The trail of states has fewer than r + 1 places.
    #[error("too few places for states")]
    FewStates,
    // The trail of actions has fewer than r places.
    #[error("too few places for actions")]
    FewActions,
}

impl Cause for PlanFault {
    ghost told = { plan_number };

    fn number(&self) -> u16 {
        match *self {
            PlanFault::NotAState => 22,
            PlanFault::FewStates => 34,
            PlanFault::FewActions => 35,
        }
    }
}
