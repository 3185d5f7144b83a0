// The model interface: what a plant is to everything that plans, checks or follows it.
#![tactic(auto)]

ghost use Rattle.std.specs.Prelude.{◌≡◌, ℕ};
ghost use Rattle.model.specs.Meaning.{Meaning, Lawful};
ghost use Rattle.model.specs.Shown.{Shown, Legible};

mod unshown;

pub use unshown::Unshown;

// A plant with a start, a goal and actions that lead from state to state.
// Every answer is a function of `meaning`: asking changes nothing.
pub trait Model {
    type State: Copy;

    type Fault: Copy;

    ghost meaning: { Self → Meaning Self.State Self.Fault };

    // How many actions there are; they are numbered from 1. Numbers and no type of its own: orders and lists tell an
    // action by its number, whatever the model.
    fn actions(&self) -> u16
        ensures { result ≡ (meaning self.now).actions };

    fn start(&self) -> Self::State
        ensures { result ≡ (meaning self.now).start };

    fn is_state(&self, s: Self::State) -> bool
        ensures { result ≡ (meaning self.now).is_state s };

    fn at_goal(&self, s: Self::State) -> bool
        ensures { result ≡ (meaning self.now).at_goal s };

    // The state that the action leads to from `s`, or the cause for which it is not allowed there.
    fn step(&self, s: Self::State, action: u16) -> Result<Self::State, Self::Fault>
        ensures { result ≡ (meaning self.now).step s action };

    ghost lawful: { (m : Self) → Lawful (meaning m) };
}

// A model whose states are described to a reader by numbers, at places counted from 1.
pub trait ShownModel: Model {
    ghost shown: { Self → Shown Self.State };

    // How many numbers describe a state.
    fn places(&self) -> u16
        ensures { result ≡ (shown self.now).places };

    // The number at a place; 0 where there is none.
    fn number(&self, s: Self::State, place: u16) -> u16
        ensures { result ≡ (shown self.now).number s place };

    ghost legible: { (m : Self) → Legible (Self.Model.meaning m) (shown m) };
}

// Why something was refused. Every cause has a number, by which it is told.
pub trait Cause {
    ghost told: { Self → ℕ };

    fn number(&self) -> u16
        ensures { result ≡ told self.now };
}
