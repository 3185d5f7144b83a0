// The rows of a network in action language B.
#![tactic(auto)]

mod finding;
mod law;
mod narrowing;
mod rows;

pub use law::{Body, Law};
pub use narrowing::Unsettled;
pub use rows::Rows;
