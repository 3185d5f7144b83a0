// Opening a campaign.
ghost use Rattle.std.specs.Prelude.{◌≡◌};
ghost use Rattle.campaign.specs.Ledger.{opening};
ghost use Rattle.campaign.specs.Promise.{Promise};
ghost use Rattle.planner.specs.Planned.{bound_read};

use super::Campaign;
use super::ledger::Ledger;
use model::Model;
use planner::LONGEST;

impl<M: Model> Campaign<M> {
    // The plant stands at the model's start; no report was accepted, and no order is out. Whatever calls follow, their
    // answers keep the promise.
    pub fn open(model: M, bound: u16) -> Campaign<M>
        ensures model { result.model ≡ model }
        ensures bound { result.bound ≡ bound_read bound }
        ensures ledger { result.ledger ≡ opening (M.Model.meaning model) }
        ensures promise { Promise (M.Model.meaning result.model) result.bound result.ledger }
    {
        let most = bound.min(LONGEST);
        let ledger = Ledger {
            stands: model.start(),
            reports: 0,
            out: None,
        };
        Campaign {
            model,
            bound: most,
            ledger,
        }
    }
}
