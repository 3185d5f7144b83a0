// A customer's own plant, written as a model: a hall with two gateways and three presses.
// Presses 1 and 2 hang on gateway 1, press 3 on gateway 2. The hall is rolled over to a new certificate chain.
#![tactic(auto)]

mod as_model;
mod doing;
mod fault;
mod job;
mod network;
mod plant;

pub use as_model::Hall;
pub use fault::HallFault;
pub use job::Job;
pub use network::{Gateway, Press};
pub use plant::{Chain, Plant, Store, Window};
