// The hall as a model: what the planner and the checker see of it.
ghost use Rattle.std.specs.Prelude.{◌≡◌, IfOk};
ghost use Rattle.hall.specs.Hall.{hall_meaning, hall_shown};
ghost use Rattle.hall.specs.Rules.{Rules};
ghost use Rattle.std.proofs.Common.{rules};

use super::doing::after;
use super::fault::HallFault;
use super::job::Job;
use super::plant::{Chain, Plant, Store, Window};
use model::{Model as PlantModel, ShownModel};

// How many jobs there are, and how many numbers describe the hall.
const JOBS: u16 = 9;

const PLACES: u16 = 9;

#[derive(Clone, Copy, PartialEq, Eq, Debug)]
pub struct Hall;

impl PlantModel for Hall {
    type State = Plant;

    type Fault = HallFault;

    ghost meaning = { λ _. hall_meaning };

    ghost lawful = { Prim.search rules };

    fn actions(&self) -> u16 {
        JOBS
    }

    // Every press trusts the old root alone, and both gateways serve the old chain.
    fn start(&self) -> Plant {
        Plant {
            press1: Store::OldRoot,
            press2: Store::OldRoot,
            press3: Store::OldRoot,
            gateway1: Chain::Old,
            gateway2: Chain::Old,
            window: Window::Closed,
        }
    }

    fn is_state(&self, plant: Plant) -> bool {
        plant.is_state()
    }

    fn at_goal(&self, plant: Plant) -> bool {
        plant.at_goal()
    }

    fn step(&self, plant: Plant, action: u16) -> Result<Plant, HallFault>
        ensures value { result ≡ hall_meaning.step plant action }
        ensures rules { IfOk result (λ next. Rules plant next) }
    {
        // The plant is tested first, so that one jump by the action's number leads to the job. A number that is no job's is still told
        // before a value that is not a state.
        if !plant.is_state() {
            return Job::try_from(action).and(Err(HallFault::NotAState));
        }
        after(plant, Job::try_from(action)?)
    }
}

// Places 1 to 3: the press trusts the new root. 4 and 5: the gateway serves the new chain. 6: the window is open.
// 7 to 9: the press is on the network. Each is 1 where that is so, else 0.
impl ShownModel for Hall {
    ghost shown = { λ _. hall_shown };

    ghost legible = { Prim.search rules };

    fn places(&self) -> u16 {
        PLACES
    }

    fn number(&self, plant: Plant, place: u16) -> u16 {
        u16::from(plant.is_state() && plant.fact(place))
    }
}
