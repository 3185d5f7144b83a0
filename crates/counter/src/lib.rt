// A small model, for tests: it counts from 0 up to a goal, action a adds a, and no state is above 999.
#![tactic(auto)]

ghost use Rattle.std.specs.Prelude.{◌≡◌, ◌≤◌, min};
ghost use Rattle.counter.specs.Counting.{counting, count_shown};
ghost use Rattle.counter.specs.Number.{number};
ghost use Rattle.std.proofs.Common.{rules};

use model::{Cause, Model as PlantModel, ShownModel};
use thiserror::Error;

// The highest state.
const TOP: u16 = 999;

#[derive(Clone, Copy, PartialEq, Eq, Debug)]
pub struct Counter {
    actions: u16,
    goal: u16,
    ghost few: { actions ≤ 200 },
}

#[derive(Clone, Copy, PartialEq, Eq, Debug, Error)]
pub enum CounterFault {
    #[error("there is no such action")]
    NoAction,
    #[error("a state is at most {TOP}")]
    NotAState,
    #[error("the sum is above {TOP}")]
    Beyond,
}

impl Counter {
    // More than 200 actions are read as 200.
    pub fn new(actions: u16, goal: u16) -> Counter
        ensures actions { result.actions ≡ min actions 200 }
        ensures goal { result.goal ≡ goal }
    {
        Counter {
            actions: actions.min(200),
            goal,
        }
    }
}

impl PlantModel for Counter {
    type State = u16;

    type Fault = CounterFault;

    ghost meaning = { λ c. counting c.actions c.goal };

    ghost lawful = { Prim.search rules };

    fn actions(&self) -> u16 {
        self.actions
    }

    fn start(&self) -> u16 {
        0
    }

    fn is_state(&self, s: u16) -> bool {
        s <= TOP
    }

    fn at_goal(&self, s: u16) -> bool {
        self.is_state(s) && s == self.goal
    }

    fn step(&self, s: u16, action: u16) -> Result<u16, CounterFault> {
        if !(1..=self.actions).contains(&action) {
            return Err(CounterFault::NoAction);
        }
        if !self.is_state(s) {
            return Err(CounterFault::NotAState);
        }
        let next = s + action;
        if !self.is_state(next) {
            return Err(CounterFault::Beyond);
        }
        Ok(next)
    }
}

impl ShownModel for Counter {
    ghost shown = { λ _. count_shown };

    ghost legible = { Prim.search rules };

    fn places(&self) -> u16 {
        1
    }

    fn number(&self, s: u16, place: u16) -> u16 {
        if self.is_state(s) && place == 1 { s } else { 0 }
    }
}

impl Cause for CounterFault {
    ghost told = { number };

    fn number(&self) -> u16 {
        match self {
            CounterFault::NoAction => 21,
            CounterFault::NotAState => 22,
            CounterFault::Beyond => 101,
        }
    }
}
