// Checking a list of actions against a model.
ghost use Rattle.planner.specs.Checked.{Checked};
ghost use Rattle.std.specs.Prelude.{◌≡◌};
ghost use Rattle.planner.specs.Walked.{Walked, placed};

use super::CheckFault;
use model::Model;

// Accepts the list, and answers how many actions it has, exactly where `state` is a state,
// each action is allowed in the state that those before it reach, and the last state meets the goal.
pub fn check<M: Model>(
    model: &M,
    state: M::State,
    actions: &[u16],
) -> Result<usize, CheckFault<M::Fault>>
    ensures { Checked (M.Model.meaning model.now) state actions.now result }
{
    if !model.is_state(state) {
        return Err(CheckFault::NotAState);
    }
    let length = actions.len();
    let end = walk(model, state, actions)?;
    if !model.at_goal(end) {
        return Err(CheckFault::Short { length });
    }
    Ok(length)
}

// The state that the actions reach, or the first cause, with its place.
fn walk<M: Model>(
    model: &M,
    state: M::State,
    actions: &[u16],
) -> Result<M::State, CheckFault<M::Fault>>
    ensures { Walked (M.Model.meaning model.now) state actions.now result }
{
    let mut at = state;
    for (i, action) in actions.iter().enumerate() {
        at = placed(model.step(at, *action), i + 1)?;
    }
    Ok(at)
}

// Adds the place of an action to the cause of its step.
fn placed<S: Copy, F: Copy>(step: Result<S, F>, place: usize) -> Result<S, CheckFault<F>>
    ensures { result ≡ placed place step }
{
    step.map_err(|cause| CheckFault::Step { place, cause })
}
