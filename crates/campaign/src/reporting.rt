// Reports on the order out.
ghost use Rattle.std.specs.Prelude.{◌≡◌, ◌+◌, ◌<◌, true};
ghost use Rattle.campaign.specs.Answers.{of_report};
ghost use Rattle.campaign.specs.Leaves.{Leaves};
ghost use Rattle.campaign.specs.Ledger.{reported};
ghost use Rattle.campaign.specs.Says.{ReportSays};

use super::Campaign;
use super::call::Call;
use super::fault::CampaignFault;
use super::ledger::Ledger;
use model::Model;

impl<M: Model> Campaign<M> {
    // The order was carried out: the plant moves to the state, if any, that the model gives for its action.
    // Answers how many reports were accepted by then.
    #[tactic(auto, using(crate::proofs::Kept::next_state, crate::proofs::Kept::unspent))]
    pub fn done(&mut self) -> Result<u16, CampaignFault>
        ensures says { ReportSays self.old.ledger (of_report result) }
        ensures leaves { Leaves (M.Model.meaning self.old.model) self.old Call.Done (of_report result) self.new }
    {
        let Some(order) = self.ledger.out else {
            return Err(CampaignFault::NoOrder);
        };
        let stands = self.ledger.stands;
        let next = self.model.step(stands, order.action).unwrap_or(stands);
        Ok(self.report(next))
    }

    // The order was tried in vain: the plant stays. Answers how many reports were accepted by then.
    // Not one function with `done` that takes the next state as a closure: what they share is in `report` already.
    #[tactic(auto, using(crate::proofs::Kept::state, crate::proofs::Kept::unspent))]
    pub fn failed(&mut self) -> Result<u16, CampaignFault>
        ensures says { ReportSays self.old.ledger (of_report result) }
        ensures leaves { Leaves (M.Model.meaning self.old.model) self.old Call.Failed (of_report result) self.new }
    {
        let Some(_) = self.ledger.out else {
            return Err(CampaignFault::NoOrder);
        };
        let stands = self.ledger.stands;
        Ok(self.report(stands))
    }

    // Adds a report and closes the order, with the plant at `stands` from then on.
    #[tactic(auto, using(crate::proofs::Kept::idle))]
    fn report(&mut self, stands: M::State) -> u16
        requires state { (M.Model.meaning self.old.model).is_state stands ≡ true }
        requires unspent { self.old.ledger.reports < self.old.bound }
        ensures value { result ≡ self.old.ledger.reports + 1 }
        ensures ledger { self.new.ledger ≡ reported self.old.ledger stands }
        ensures model { self.new.model ≡ self.old.model }
        ensures bound { self.new.bound ≡ self.old.bound }
    {
        let reports = self.ledger.reports + 1;
        self.ledger = Ledger {
            stands,
            reports,
            out: None,
        };
        reports
    }
}
