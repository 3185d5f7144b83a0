// Carrying out one call on a campaign.
ghost use Rattle.std.specs.Prelude.{◌≡◌, min, length};
ghost use Rattle.replay.specs.Carried.{Carried};
ghost use Rattle.replay.specs.Logged.{limited};

use campaign::{Answer, Call, Campaign};
use model::ShownModel;
use trail::Trail;

// Asks over trails on the lent places. Tried as one with `ask_within`, and the proof did not close: after a loan of a part of a slice
// no fact says that the part holds what the trail left in it.
fn ask_over<M: ShownModel>(
    campaign: &mut Campaign<M>,
    states: &mut [M::State],
    actions: &mut [u16],
) -> Answer
    ensures { Carried (M.Model.meaning campaign.old.model) (M.ShownModel.shown campaign.old.model) campaign.old (Call.Ask (length states.old) (length actions.old)) result campaign.new states.old states.new actions.old actions.new }
{
    Answer::from(campaign.ask(&mut Trail::new(states), &mut Trail::new(actions)))
}

// Asks over the first of the lent places: as many as it may use, and no more than there are.
fn ask_within<M: ShownModel>(
    campaign: &mut Campaign<M>,
    states: &mut [M::State],
    actions: &mut [u16],
    states_allowed: usize,
    actions_allowed: usize,
) -> Answer
    ensures { Carried (M.Model.meaning campaign.old.model) (M.ShownModel.shown campaign.old.model) campaign.old (Call.Ask (min states_allowed (length states.old)) (min actions_allowed (length actions.old))) result campaign.new states.old states.new actions.old actions.new }
{
    let states_used = states_allowed.min(states.len());
    let actions_used = actions_allowed.min(actions.len());
    ask_over(
        campaign,
        &mut states[0..states_used],
        &mut actions[0..actions_used],
    )
}

// Carries out one call, and gives its answer. Asking uses as many of the lent places as the call allows, and no more than
// there are. A call is a value and no closure, since a log keeps it.
// The campaign and the places are parameters, and no struct of three loans: one would be made and taken apart at each call.
pub fn carry_out<M: ShownModel>(
    campaign: &mut Campaign<M>,
    call: Call<M::State>,
    states: &mut [M::State],
    actions: &mut [u16],
) -> Answer
    ensures { Carried (M.Model.meaning campaign.old.model) (M.ShownModel.shown campaign.old.model) campaign.old (limited (length states.old) (length actions.old) call) result campaign.new states.old states.new actions.old actions.new }
{
    match call {
        Call::Ask {
            states: states_allowed,
            actions: actions_allowed,
        } => ask_within(campaign, states, actions, states_allowed, actions_allowed),
        Call::Done => Answer::from(campaign.done()),
        Call::Failed => Answer::from(campaign.failed()),
        Call::Find(value) => Answer::from(campaign.find(value)),
        Call::Show(place) => Answer::Number(campaign.show(place)),
    }
}

// The call as it is carried out over so many lent places. No method, since `Call` is a type of another crate. A match, since only an
// asking has places.
pub fn limit<S: Copy>(call: Call<S>, states: usize, actions: usize) -> Call<S>
    ensures { result ≡ limited states actions call }
{
    match call {
        Call::Ask {
            states: states_allowed,
            actions: actions_allowed,
        } => Call::Ask {
            states: states_allowed.min(states),
            actions: actions_allowed.min(actions),
        },
        _ => call,
    }
}
