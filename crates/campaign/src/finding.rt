// Findings: where the plant was found to stand.
ghost use Rattle.campaign.specs.Answers.{of_report};
ghost use Rattle.campaign.specs.Leaves.{Leaves};
ghost use Rattle.campaign.specs.Says.{FindSays};

use super::Campaign;
use super::call::Call;
use super::fault::CampaignFault;
use model::Model;

impl<M: Model> Campaign<M> {
    // The plant was found to stand at `value`, whatever was done; the reports stay. Answers how many there are.
    pub fn find(&mut self, value: M::State) -> Result<u16, CampaignFault>
        ensures says { FindSays (M.Model.meaning self.old.model) self.old.ledger value (of_report result) }
        ensures leaves { Leaves (M.Model.meaning self.old.model) self.old (Call.Find value) (of_report result) self.new }
    {
        if self.ledger.out.is_some() {
            return Err(CampaignFault::OrderOut);
        }
        if !self.model.is_state(value) {
            return Err(CampaignFault::NotAState);
        }
        self.ledger.stands = value;
        Ok(self.ledger.reports)
    }
}
