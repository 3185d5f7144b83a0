// A network entered as laws of action language B.
#![tactic(auto)]

mod asking;
mod draft;
mod entering;
mod fault;
mod opening;
mod reading;

pub use draft::Draft;
pub use fault::EntryFault;
