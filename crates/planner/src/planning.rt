// Planning: the fewest actions that lead from a state to the goal.
// It goes through the lists of no action, of one, of two .., each time depth first and in their order.
// `plan` takes two trails and no struct of both: they stand on two slices that the caller lends and reads one by one.
ghost use Rattle.std.specs.Prelude.{◌≡◌, ◌+◌, Ok};
ghost use Rattle.planner.specs.Path.{KeptPast};
ghost use Rattle.planner.specs.Planned.{Planned, Ready, bound_read};

use super::PlanFault;
use super::path::Path;
use super::search::Search;
use model::Model;
use trail::Trail;

// The longest list that is looked for. A bound above it is read as this.
pub const LONGEST: u16 = 24;

// It has names of its own, and not those of an `Option`: 'no way' says something of the plant, where `None` would say that
// there is no answer.
#[derive(Clone, Copy, PartialEq, Eq, Debug)]
pub enum PlanAnswer {
    // So many actions lead to the goal, and no fewer do. They stand on the trail.
    Steps(u16),
    // No list within the bound leads to the goal.
    NoWay,
}

// Looks for the list of fewest actions, at most `bound`, that leads from `state` to the goal; of several, for the one
// with the lower action number at the first difference. It then stands on `actions`, and the states passed on `states`.
pub fn plan<M: Model>(
    model: &M,
    state: M::State,
    bound: u16,
    states: &mut Trail<M::State>,
    actions: &mut Trail<u16>,
) -> Result<PlanAnswer, PlanFault>
    ensures { Planned (M.Model.meaning model.now) state (bound_read bound) states.old actions.old result states.new actions.new }
{
    if !model.is_state(state) {
        return Err(PlanFault::NotAState);
    }
    let most = bound.min(LONGEST);
    if states.room() < usize::from(most) + 1 {
        return Err(PlanFault::FewStates);
    }
    if actions.room() < usize::from(most) {
        return Err(PlanFault::FewActions);
    }
    Ok(deepen(model, state, most, &mut Path { states, actions }))
}

// Goes through the lists of no action, of one, of two .. up to `most`.
fn deepen<M: Model>(model: &M, state: M::State, most: u16, path: &mut Path<M::State>) -> PlanAnswer
    requires { Ready (M.Model.meaning model.now) state most path.old.states.now path.old.actions.now }
    ensures planned { Planned (M.Model.meaning model.now) state most path.old.states.now path.old.actions.now (Ok result) path.new.states.now path.new.actions.now }
    ensures kept { KeptPast (most + 1) most path.old path.new }
{
    for depth in 0..=most {
        let search = Search {
            model,
            state,
            depth,
        };
        if search.explore(path) {
            return PlanAnswer::Steps(depth);
        }
    }
    path.clear();
    PlanAnswer::NoWay
}
