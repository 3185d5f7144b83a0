// The numbers that describe a plant, as text.
use hall::{Hall, Plant};
use model::ShownModel;
use std::fmt;

// Each number has a space before it. Of a value that is not a state all are 0, where the text of a `Plant` tells what it is.
#[derive(Clone, Copy)]
pub struct Numbers(pub Plant);

impl fmt::Display for Numbers {
    fn fmt<W: fmt::Write>(&self, f: &mut fmt::Formatter<W>) -> fmt::Result {
        for place in 1..=Hall.places() {
            write!(f, " {}", Hall.number(self.0, place))?;
        }
        Ok(())
    }
}
