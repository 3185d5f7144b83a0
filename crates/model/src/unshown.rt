// Any model as a shown one that shows no number, for calls that ask for a shown model.
ghost use Rattle.model.specs.Shown.{nothing_shown};
ghost use Rattle.std.proofs.Common.{rules};

use super::{Model as PlantModel, ShownModel};

// How many numbers are shown.
const PLACES: u16 = 0;

// Holds a model, and means what that means.
#[derive(Drop)]
pub struct Unshown<M> {
    pub model: M,
}

impl<M: PlantModel> PlantModel for Unshown<M> {
    type State = M::State;

    type Fault = M::Fault;

    ghost meaning = { λ u. M.Model.meaning u.model };

    ghost lawful = { λ u. M.Model.lawful u.model };

    fn actions(&self) -> u16 {
        self.model.actions()
    }

    fn start(&self) -> M::State {
        self.model.start()
    }

    fn is_state(&self, s: M::State) -> bool {
        self.model.is_state(s)
    }

    fn at_goal(&self, s: M::State) -> bool {
        self.model.at_goal(s)
    }

    fn step(&self, s: M::State, action: u16) -> Result<M::State, M::Fault> {
        self.model.step(s, action)
    }
}

impl<M: PlantModel> ShownModel for Unshown<M> {
    ghost shown = { λ _. nothing_shown };

    ghost legible = { Prim.search rules };

    fn places(&self) -> u16 {
        PLACES
    }

    fn number(&self, _s: M::State, _place: u16) -> u16 {
        0
    }
}
