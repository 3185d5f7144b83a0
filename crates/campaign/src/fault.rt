// Why a call of a campaign is refused.
ghost use Rattle.std.specs.Prelude.{◌≡◌};
ghost use Rattle.campaign.specs.Number.{number, of_plan};

use model::Cause;
use planner::PlanFault;
use thiserror::Error;

#[derive(Clone, Copy, PartialEq, Eq, Debug, Error)]
pub enum CampaignFault {
    #[error("the value is not a state")]
    NotAState,
    // It has to be reported on first.
    #[error("an order is out")]
    OrderOut,
    #[error("no order is out")]
    NoOrder,
    // The trail of states has fewer than r + 1 places, r being the steps left.
    #[error("too few places for states")]
    FewStates,
    // The trail of actions has fewer than r places.
    #[error("too few places for actions")]
    FewActions,
}

impl Cause for CampaignFault {
    ghost told = { number };

    fn number(&self) -> u16 {
        match *self {
            CampaignFault::NotAState => 22,
            CampaignFault::OrderOut => 31,
            CampaignFault::NoOrder => 32,
            CampaignFault::FewStates => 34,
            CampaignFault::FewActions => 35,
        }
    }
}

// Why planning is refused is why asking is. Cases of its own and no case that holds a `PlanFault`: finding refuses a value too, and
// plans nothing.
impl From<PlanFault> for CampaignFault {
    ghost from_gives = { λ f r. r ≡ of_plan f };

    fn from(fault: PlanFault) -> CampaignFault {
        match fault {
            PlanFault::NotAState => CampaignFault::NotAState,
            PlanFault::FewStates => CampaignFault::FewStates,
            PlanFault::FewActions => CampaignFault::FewActions,
        }
    }
}
