// Showing where the plant stands.
ghost use Rattle.campaign.specs.Says.{ShowSays};

use super::Campaign;
use super::answer::Answer;
use model::ShownModel;

impl<M: ShownModel> Campaign<M> {
    // The number that describes where the plant stands, at a place counted from 1; 0 where there is none.
    pub fn show(&self, place: u16) -> u16
        ensures { ShowSays (M.ShownModel.shown self.now.model) self.now.ledger place (Answer.Number result) }
    {
        self.model.number(self.ledger.stands, place)
    }
}
