// Asking for the next step.
ghost use Rattle.std.specs.Prelude.{◌≡◌, ◌≤◌};
ghost use Rattle.campaign.specs.Answers.{of_ask};
ghost use Rattle.campaign.specs.Asked.{Asked};
ghost use Rattle.campaign.specs.AdviceOf.{advice_of};
ghost use Rattle.campaign.specs.Leaves.{Leaves};
ghost use Rattle.campaign.specs.Ledger.{left};
ghost use Rattle.campaign.specs.Says.{Advised, AskSays};
ghost use Rattle.trail.specs.Held.{held, room};

use super::Campaign;
use super::answer::Advice;
use super::call::Call;
use super::fault::CampaignFault;
use super::order::Order;
use model::Model;
use planner::{PlanAnswer, plan};
use trail::Trail;

impl<M: Model> Campaign<M> {
    // Names the next step and how many lead to the goal, this one among them, or says that the goal is reached, or that
    // there is no way within the steps left. It plans over the two trails, from where the plant stands.
    pub fn ask(
        &mut self,
        states: &mut Trail<M::State>,
        actions: &mut Trail<u16>,
    ) -> Result<Advice, CampaignFault>
        ensures says { AskSays (M.Model.meaning self.old.model) self.old.bound self.old.ledger (room states.old) (room actions.old) (of_ask result) }
        ensures leaves { Leaves (M.Model.meaning self.old.model) self.old (Call.Ask (room states.old) (room actions.old)) (of_ask result) self.new }
        ensures trails { Asked (M.Model.meaning self.old.model) self.old.ledger.stands (left self.old.bound self.old.ledger) states.old actions.old result states.new actions.new }
    {
        if self.ledger.out.is_some() {
            return Err(CampaignFault::OrderOut);
        }
        let stands = self.ledger.stands;
        let left = self.left();
        let advice = advise(&self.model, stands, left, states, actions)?;
        if let Advice::Order(order) = advice {
            self.ledger.out = Some(order);
        }
        Ok(advice)
    }
}

// What planning from a state, for at most so many steps, says to a crew.
fn advise<M: Model>(
    model: &M,
    state: M::State,
    most: u16,
    states: &mut Trail<M::State>,
    actions: &mut Trail<u16>,
) -> Result<Advice, CampaignFault>
    requires { most ≤ 24 }
    ensures says { Advised (M.Model.meaning model.now) state most (room states.old) (room actions.old) (of_ask result) }
    ensures trails { Asked (M.Model.meaning model.now) state most states.old actions.old result states.new actions.new }
{
    match plan(model, state, most, states, actions)? {
        PlanAnswer::Steps(steps) => Ok(head(actions, steps)),
        PlanAnswer::NoWay => Ok(Advice::NoWay),
    }
}

// The first of the actions as an order; where there is none, the goal is reached.
fn head(actions: &mut Trail<u16>, steps: u16) -> Advice
    ensures value { result ≡ advice_of (held actions.old) steps }
    ensures same { actions.new ≡ actions.old }
{
    match actions.get(0) {
        Some(action) => Advice::Order(Order { action, steps }),
        None => Advice::Reached,
    }
}
