// The ledger of a campaign.
use super::order::Order;

#[derive(Clone, Copy, PartialEq, Eq, Debug)]
pub struct Ledger<S> {
    // Where the plant stands.
    pub stands: S,
    // How many reports were accepted.
    pub reports: u16,
    // The order out: given, and not reported on yet.
    pub out: Option<Order>,
}
