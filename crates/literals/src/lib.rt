// Literals of a network, sets of them in two words, and states in one.
#![tactic(auto)]

mod algebra;
mod literal;
mod set;
mod state;

pub use literal::{Literal, NoLiteral};
pub use set::LiteralSet;
pub use state::State;
