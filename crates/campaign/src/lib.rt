// Following a campaign: a crew asks for the next step, carries it out and reports; the campaign keeps the ledger.
#![tactic(auto)]

ghost use Rattle.std.specs.Prelude.{◌≤◌};
ghost use Rattle.campaign.specs.Sound.{Sound};

mod answer;
mod asking;
mod call;
mod fault;
mod finding;
mod ledger;
mod opening;
mod order;
mod questions;
mod reporting;
mod showing;

pub use answer::{Advice, Answer};
pub use call::{Call, Event};
pub use fault::CampaignFault;
pub use ledger::Ledger;
use model::Model;
pub use order::Order;

// A campaign holds a model, the bound as it is read, and the ledger.
#[derive(Drop)]
pub struct Campaign<M: Model> {
    model: M,
    bound: u16,
    ledger: Ledger<M::State>,
    ghost read: { bound ≤ 24 },
    // That there is a proof, and not which: an order may be right in more than one way, and the campaign is still the same.
    ghost sound: { ∥ Sound (M.Model.meaning model) bound ledger ∥₁ },
}
