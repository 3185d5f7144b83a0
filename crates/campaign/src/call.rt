// A call of a campaign as a value, and a call with its answer.
use super::answer::Answer;
use std::fmt;

#[derive(Clone, Copy, PartialEq, Eq, Debug)]
pub enum Call<S> {
    // Asks for the next step, with room for so many states and actions.
    Ask { states: usize, actions: usize },
    // Reports that the order was carried out.
    Done,
    // Reports that the order was tried in vain.
    Failed,
    // Tells where the plant was found to stand.
    Find(S),
    // Asks for the number shown at a place.
    Show(u16),
}

impl<S: fmt::Display> fmt::Display for Call<S> {
    fn fmt<W: fmt::Write>(&self, f: &mut fmt::Formatter<W>) -> fmt::Result {
        match self {
            Call::Ask { states, actions } => write!(
                f,
                "ask with places for {states} states and {actions} actions"
            ),
            Call::Done => f.write_str("done"),
            Call::Failed => f.write_str("failed"),
            Call::Find(value) => write!(f, "find {value}"),
            Call::Show(place) => write!(f, "show place {place}"),
        }
    }
}

#[derive(Clone, Copy, PartialEq, Eq, Debug)]
pub struct Event<S> {
    pub call: Call<S>,
    pub answer: Answer,
}
