// Planning and checking, written once for every model.
#![tactic(auto)]

mod checking;
mod fault;
mod path;
mod planning;
mod search;

pub use checking::check;
pub use fault::{CheckFault, PlanFault};
pub use planning::{LONGEST, PlanAnswer, plan};
