// What a campaign tells of itself. Nothing that is asked changes it.
ghost use Rattle.std.specs.Prelude.{◌≡◌, ◌≤◌, true, IfSome};
ghost use Rattle.campaign.specs.Ledger.{left};
ghost use Rattle.campaign.specs.Promise.{Promise};
ghost use Rattle.campaign.specs.Sound.{Due};

use super::Campaign;
use super::order::Order;
use model::Model;

impl<M: Model> Campaign<M> {
    // The model. Whatever calls follow, their answers keep the promise for it.
    pub fn model(&self) -> &M
        ensures value { result.now ≡ self.now.model }
        ensures promise { Promise (M.Model.meaning self.now.model) self.now.bound self.now.ledger }
    {
        &self.model
    }

    // Ends the campaign and gives its model back.
    pub fn into_model(self) -> M
        ensures { result ≡ self.model }
    {
        let Campaign { model, .. } = self;
        model
    }

    // Where the plant stands, which always is a state.
    #[tactic(auto, using(crate::proofs::Kept::state))]
    pub fn stands(&self) -> M::State
        ensures value { result ≡ self.now.ledger.stands }
        ensures state { (M.Model.meaning self.now.model).is_state result ≡ true }
    {
        self.ledger.stands
    }

    // How many reports were accepted: no more than the bound.
    #[tactic(auto, using(crate::proofs::Kept::within))]
    pub fn reports(&self) -> u16
        ensures value { result ≡ self.now.ledger.reports }
        ensures within { result ≤ self.now.bound }
    {
        self.ledger.reports
    }

    // The order out, if there is one. It is right where the plant stands.
    #[tactic(auto, using(crate::proofs::Kept::order))]
    pub fn order(&self) -> Option<Order>
        ensures value { result ≡ self.now.ledger.out }
        ensures due { IfSome result (Due (M.Model.meaning self.now.model) self.now.ledger.stands (left self.now.bound self.now.ledger)) }
    {
        self.ledger.out
    }

    // How many steps are left: the bound less the reports.
    #[tactic(auto, using(crate::proofs::Kept::within))]
    pub fn left(&self) -> u16
        ensures { result ≡ left self.now.bound self.now.ledger }
    {
        self.bound - self.ledger.reports
    }
}
