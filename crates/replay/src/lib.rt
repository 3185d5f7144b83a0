// Replaying: carrying out a list of calls on a fresh campaign, with a log of the answers that it really gives.
#![tactic(auto)]

ghost use Rattle.planner.specs.Planned.{bound_read};
ghost use Rattle.replay.specs.Replayed.{ReplaySays};

mod carrying;
mod fault;

use campaign::{Call, Campaign, Event};
pub use carrying::carry_out;
use carrying::limit;
pub use fault::ShortLog;
use model::ShownModel;
use trail::Trail;

// Carries out the calls, one after the other, on a campaign that is opened for them. The log then holds each with the answer
// that it really got, refused ones included, and the campaign is handed back as it then is.
pub fn replay<M: ShownModel>(
    model: M,
    bound: u16,
    calls: &[Call<M::State>],
    states: &mut [M::State],
    actions: &mut [u16],
    log: &mut Trail<Event<M::State>>,
) -> Result<Campaign<M>, ShortLog<M>>
    ensures { ReplaySays (M.Model.meaning model) (M.ShownModel.shown model) (bound_read bound) model calls.now states.old states.new actions.old actions.new log.old log.new result }
{
    if log.room() < calls.len() {
        return Err(ShortLog { model });
    }
    log.clear();
    let mut campaign = Campaign::open(model, bound);
    for call in calls {
        let carried = limit(*call, states.len(), actions.len());
        let answer = carry_out(&mut campaign, *call, states, actions);
        let _ = log.push(Event {
            call: carried,
            answer,
        });
    }
    Ok(campaign)
}
